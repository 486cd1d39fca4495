// An object: the number of its struct, and eight cells.

// A word below 2^31, and a mark.
#[derive(Clone, Copy, Debug, Default, PartialEq, Eq, Drop)]
pub struct Cell {
    pub word: u32,
    pub mark: bool,
}

impl Cell {
    // What every cell of a new object holds.
    pub const ZERO: Cell = Cell {
        word: 0,
        mark: false,
    };
}

#[derive(Clone, Copy, Debug, Default, PartialEq, Eq, Drop)]
pub struct Object {
    pub kind: u8,
    pub cells: [Cell; 8],
}

impl Object {
    // An object of struct 0, to fill a slice with.
    pub const BLANK: Object = Object {
        kind: 0,
        cells: [Cell::ZERO; 8],
    };
}
