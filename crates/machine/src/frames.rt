// One frame: its slots, and where it goes.
ghost use Rattle.std.specs.Prelude.{◌≡◌, Ok, Err, None, if◌then◌else◌, map, slice_set};
ghost use Rattle.machine.specs.declared.threads.Status.TheVariants.{Running, Halted};
ghost use Rattle.std.specs.List.{list_all};
ghost use Rattle.table.specs.declared.fault.Refusal.TheVariants.{NoOperand, Sort};
ghost use Rattle.machine.specs.Values.{is_reference, at, given};

use super::threads::{Frame, Slot, Status};
use table::fault::{Refusal, require};

// What a record did: its thread's status, the newest frame, and a number put out.
#[derive(Clone, Copy, Drop)]
pub struct Done {
    pub status: Status,
    pub frame: Frame,
    pub out: Option<u32>,
}

impl Frame {
    // What a slot holds; there are 16.
    pub fn at(&self, x: u8) -> Slot
        ensures { result ≡ at self.now.slots x }
    {
        let slots: &[Slot] = &self.slots;
        slots.get(x as usize).copied().unwrap_or(Slot::Empty)
    }

    // Whether a slot is an operand: one of the 16, and not empty.
    pub fn gives(&self, x: u8) -> bool
        ensures { result ≡ given self.now.slots x }
    {
        x < 16 && self.at(x) != Slot::Empty
    }

    // Whether all of these slots are operands.
    pub fn gives_all(&self, xs: &[u8]) -> bool
        ensures { result ≡ list_all (given self.now.slots) xs.now }
    {
        xs.iter().all(|x| self.gives(*x))
    }

    // What operands hold.
    pub(crate) fn operands<const N: usize>(&self, xs: [u8; N]) -> Result<[Slot; N], Refusal>
        ensures { result ≡ (if list_all (given self.now.slots) xs.entry then Ok (map (at self.now.slots) xs.entry) else Err NoOperand) }
    {
        require(self.gives_all(&xs), Refusal::NoOperand)?;
        Ok(xs.map(|x| self.at(x)))
    }

    // What operands hold that are all references.
    pub(crate) fn references<const N: usize>(&self, xs: [u8; N]) -> Result<[Slot; N], Refusal>
        ensures { result ≡ (if list_all (given self.now.slots) xs.entry then (if list_all is_reference (map (at self.now.slots) xs.entry) then Ok (map (at self.now.slots) xs.entry) else Err Sort) else Err NoOperand) }
    {
        let values = self.operands(xs)?;
        require(all_references(&values), Refusal::Sort)?;
        Ok(values)
    }

    // The same frame with a slot written; there is nothing to write past the slots.
    pub fn with(self, x: u8, value: Slot) -> Frame
        ensures { result ≡ record { function = self.function; index = self.index; slots = slice_set self.slots x value } }
    {
        let mut frame = self;
        let slots: &mut [Slot] = &mut frame.slots;
        let i = x as usize;
        // By its index: what is written through `get_mut` is not known of the frame, and the proof does not close.
        if i < slots.len() {
            slots[i] = value;
        }
        frame
    }

    // Goes to a record, and its thread runs on.
    pub fn goes(self, index: usize) -> Done
        ensures { result ≡ record { status = Running; frame = record { function = self.function; index = index; slots = self.slots }; out = None } }
    {
        Done {
            status: Status::Running,
            frame: Frame { index, ..self },
            out: None,
        }
    }

    // Stays where it is, and its thread halts.
    pub fn halts(self) -> Done
        ensures { result ≡ record { status = Halted; frame = self; out = None } }
    {
        Done {
            status: Status::Halted,
            frame: self,
            out: None,
        }
    }
}

fn all_references(values: &[Slot]) -> bool
    ensures { result ≡ list_all is_reference values.now }
{
    values.iter().all(|value| value.is_reference())
}
