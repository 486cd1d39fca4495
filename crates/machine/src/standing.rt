// A frame that stands before a record.
ghost use Rattle.std.specs.Prelude.{◌≡◌, suc, ◌+◌, ◌^◌, ◌<◌, ◌≤◌, None, slice_set};
ghost use Rattle.machine.specs.declared.threads.Status.TheVariants.{Running};

use super::frames::Done;
use super::threads::{Frame, Slot};
use std::marker::Model;

// Its index leaves room for that of the next record.
#[derive(Clone, Copy, Drop)]
pub struct Standing {
    frame: Frame,
}

impl Model for Standing {
    ghost use Rattle.std.specs.Prelude.{◌<◌, ◌^◌};
    ghost use Rattle.machine.specs.declared.threads.Frame.{Frame};

    ghost Value = { Frame };

    ghost view = { λ s. s.frame };

    ghost invariant = { λ s. s.frame.index < 2 ^ 32 };

    ghost inverse = { λ f. record { frame = f } };
}

impl Standing {
    pub fn new(frame: Frame) -> Standing
        requires { frame.index < 2 ^ 32 }
        ensures { result ≡ frame }
    {
        Standing { frame }
    }

    pub fn frame(self) -> Frame
        ensures { result ≡ self }
    {
        self.frame
    }

    // The index of the next record.
    pub fn next(self) -> usize
        ensures value { result ≡ suc self.index }
        ensures most { result ≤ 2 ^ 32 }
    {
        self.frame.index + 1
    }

    // The index of the record that lies so many past the next.
    pub fn past(self, count: u32) -> usize
        ensures { result ≡ suc self.index + count }
    {
        self.next() + count as usize
    }

    // The same with a slot written.
    pub fn with(self, x: u8, value: Slot) -> Standing
        ensures { result ≡ record { function = self.function; index = self.index; slots = slice_set self.slots x value } }
    {
        Standing {
            frame: self.frame.with(x, value),
        }
    }

    // Binds a slot and goes to the next record.
    pub fn bind(self, z: u8, value: Slot) -> Done
        requires { z < 16 }
        ensures { result ≡ record { status = Running; frame = record { function = self.function; index = suc self.index; slots = slice_set self.slots z value }; out = None } }
    {
        self.frame.with(z, value).goes(self.next())
    }
}
