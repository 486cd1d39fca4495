// A start, clashes and owners, on machines that are written out.
#![tactic(auto)]

ghost use Rattle.std.specs.Prelude.{◌≡◌, replicate, slice_set};
ghost use Rattle.machine.specs.declared.threads.Slot.TheVariants.{Empty, Reference};
ghost use Rattle.machine.specs.declared.threads.Status.TheVariants.{Running};

use list::Front;
use machine::threads::{Frame, Slot, Status, Thread};

// A frame before a record of function 0, with one slot that refers to an object.
pub fn holding(index: usize, x: u8, object: u32) -> Frame
    ensures { result ≡ record { function = 0; index = index; slots = slice_set (replicate 16 Empty) x (Reference object) } }
{
    let mut frame = Frame::FIRST.with(x, Slot::Reference(object));
    frame.index = index;
    frame
}

// A thread that runs, with so many frames alike.
pub fn running(depth: usize, frame: Frame) -> Thread
    ensures { result ≡ record { status = Running; frames = record { items = replicate 8 frame; len = depth } } }
{
    Thread {
        status: Status::Running,
        frames: Front {
            items: [frame; 8],
            len: depth,
        },
    }
}

#[cfg(test)]
mod tests;
