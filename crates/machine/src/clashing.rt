// Two threads at one var field.

// Two running threads, the lower number first, and the var field of an object that both touch.
#[derive(Clone, Copy, Debug, PartialEq, Eq, Drop)]
pub struct Clash {
    pub lower: usize,
    pub higher: usize,
    pub object: u32,
    pub field: u8,
}
