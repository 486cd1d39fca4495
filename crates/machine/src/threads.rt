// Threads of frames, and what their slots hold.
use list::Front;

// How many slots a frame has, how many frames a thread and how many threads a machine.
pub const SLOTS: usize = 16;

pub const FRAMES: usize = 8;

pub const THREADS: usize = 8;

// A reference holds the number of its object.
#[derive(Clone, Copy, Debug, PartialEq, Eq, Drop)]
pub enum Slot {
    Empty,
    Null,
    Number(u32),
    Reference(u32),
}

// Stands before a record of a function; a frame that waits stays at its call.
// No count beside the slots: all 16 are there.
// A jump of a table that is not accepted may lead past every record, so `index` is wider than a byte.
#[derive(Clone, Copy, Debug, Drop)]
pub struct Frame {
    pub function: u8,
    pub index: usize,
    pub slots: [Slot; SLOTS],
}

impl Frame {
    // At record 0 of function 0, all slots empty.
    pub const FIRST: Frame = Frame {
        function: 0,
        index: 0,
        slots: [Slot::Empty; SLOTS],
    };
}

#[derive(Clone, Copy, Debug, PartialEq, Eq, Drop)]
pub enum Status {
    Running = 0,
    Ended = 1,
    Halted = 2,
}

// The newest frame is the last.
#[derive(Clone, Copy, Debug, Drop)]
pub struct Thread {
    pub status: Status,
    pub frames: Front<Frame, FRAMES>,
}

#[derive(Clone, Copy, Debug, Drop)]
pub struct Machine {
    pub threads: Front<Thread, THREADS>,
}
