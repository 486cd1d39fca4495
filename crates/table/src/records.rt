// Records: an op, a slot byte, six operand bytes and a number, taken apart.

// A test: its yes block comes next, its no block behind that.
#[derive(Clone, Copy, Drop)]
pub enum Test {
    // 16
    Nil { x: u8 },
    // 17
    Same { x: u8, y: u8 },
    // 18
    Equal { x: u8, y: u8 },
    // 19
    Less { x: u8, y: u8 },
    // 20
    Link { x: u8, f: u8, y: u8, g: u8 },
    // 21
    Unlink { x: u8, f: u8, y: u8, g: u8 },
    // 22
    Swap { x: u8, f: u8, y: u8, w: u8 },
    // 23
    Try { x: u8, f: u8, y: u8 },
    // 24
    Fix { x: u8, f: u8, y: u8 },
    // 25
    Stable { x: u8, f: u8 },
}

// A record: z is the slot that it binds; x, y and w are slots, s is a struct, n a function, f and g are fields.
// A call holds the operand bytes behind n as a part of the table, and `Again` all six.
#[derive(Clone, Copy)]
pub enum Record<'t> {
    // 1
    New { z: u8, s: u8 },
    // 2
    Null { z: u8, s: u8 },
    // 3
    Int { z: u8, number: u32 },
    // 4
    Share { z: u8, x: u8 },
    // 5
    Own { z: u8, x: u8 },
    // 6
    Get { z: u8, x: u8, f: u8 },
    // 7
    Take { z: u8, x: u8, f: u8 },
    // 8
    Set { z: u8, x: u8, f: u8, y: u8 },
    // 9
    Add { z: u8, x: u8, y: u8 },
    // 10
    Call { z: u8, n: u8, args: &'t [u8] },
    // 11
    Fork { n: u8, args: &'t [u8] },
    // 12
    Return { x: u8 },
    // 13
    Again { args: &'t [u8] },
    // 14
    Join { number: u32 },
    // 15
    Emit { x: u8 },
    // 16 to 25, with the counts of its blocks' records
    Ask { test: Test, yes: u16, no: u16 },
}
