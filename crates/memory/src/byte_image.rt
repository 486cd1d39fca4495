// A memory that is a byte image, over a slice that its caller lends: 36 bytes an object.
ghost use Rattle.std.specs.Prelude.{◌*◌, ◌/◌, ◌≤◌, length};

mod methods;

// No heap: the slice is the caller's, and the count says how much of it is in use.
#[derive(Drop)]
pub struct ByteImage<'a> {
    bytes: &'a mut [u8],
    count: usize,
    ghost few: { length bytes.now / 36 ≤ 1024 },
    ghost there: { 36 * count ≤ length bytes.now },
}
