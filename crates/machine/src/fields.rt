// get, take and set: of a field of the object that x refers to.
ghost use Rattle.std.specs.Prelude.{◌≡◌, ℕ};
ghost use Rattle.table.specs.Records.{Get, Take, Set};
ghost use Rattle.table.specs.Faults.{numbered};
ghost use Rattle.table.specs.Reading.{program_of};
ghost use Rattle.machine.specs.Values.{suits};
ghost use Rattle.machine.specs.Reading.{where_field, field_type};
ghost use Rattle.machine.specs.Alone.{alone, done_of, memory_after};

use super::frames::Done;
use super::reading::{resolve, see};
use super::standing::Standing;
use super::threads::Slot;
use memory::keeping::Memory;
use table::Table;
use table::fault::{Refusal, require};

impl Standing {
    pub fn get<M: Memory>(
        self,
        table: &Table,
        memory: &M,
        z: u8,
        x: u8,
        f: u8,
    ) -> Result<Done, Refusal>
        ensures { (room : ℕ) → numbered result ≡ done_of (alone (program_of table.now) (M.Memory.model memory.now) self room (Get z x f)) }
    {
        require(z < 16, Refusal::NoOperand)?;
        let [value] = self.frame().references([x])?;
        match resolve(table, memory, value, f)? {
            Some(target) => Ok(self.bind(z, target.value())),
            None => Ok(self.frame().halts()),
        }
    }

    // Leaves 0 in the cell.
    pub fn take<M: Memory>(
        self,
        table: &Table,
        memory: &mut M,
        z: u8,
        x: u8,
        f: u8,
    ) -> Result<Done, Refusal>
        ensures value { (room : ℕ) → numbered result ≡ done_of (alone (program_of table.now) (M.Memory.model memory.old) self room (Take z x f)) }
        ensures after { (room : ℕ) → M.Memory.model memory.new ≡ memory_after (M.Memory.model memory.old) (alone (program_of table.now) (M.Memory.model memory.old) self room (Take z x f)) }
    {
        require(z < 16, Refusal::NoOperand)?;
        let [value] = self.frame().references([x])?;
        let Some(target) = resolve(table, memory, value, f)? else {
            return Ok(self.frame().halts());
        };
        memory
            .store(target.object as usize, f as usize, 0)
            .map_err(|_| Refusal::Absent)?;
        Ok(self.bind(z, target.value()))
    }

    // Writes y's value, unmarked; what goes to an owned or pristine field leaves y null.
    pub fn set<M: Memory>(
        self,
        table: &Table,
        memory: &mut M,
        z: u8,
        x: u8,
        f: u8,
        y: u8,
    ) -> Result<Done, Refusal>
        ensures value { (room : ℕ) → numbered result ≡ done_of (alone (program_of table.now) (M.Memory.model memory.old) self room (Set z x f y)) }
        ensures after { (room : ℕ) → M.Memory.model memory.new ≡ memory_after (M.Memory.model memory.old) (alone (program_of table.now) (M.Memory.model memory.old) self room (Set z x f y)) }
    {
        // By `at` and `gives`: with `operands` the search for this proof stops at its limits.
        let frame = self.frame();
        let (value, new) = (frame.at(x), frame.at(y));
        require(
            z < 16 && frame.gives(x) && frame.gives(y),
            Refusal::NoOperand,
        )?;
        require(
            value.is_reference() && fits(table, memory, value, f, new),
            Refusal::Sort,
        )?;
        let Some(target) = resolve(table, memory, value, f)? else {
            return Ok(frame.halts());
        };
        let word = new.cell_word()?;
        memory
            .store(target.object as usize, f as usize, word)
            .map_err(|_| Refusal::Absent)?;
        let spent = self.with(y, new.left(target.field.ty)).with(x, Slot::Null);
        Ok(spent.bind(z, value))
    }
}

// Whether a value is of the sort of a field, where that can be judged.
fn fits<M: Memory>(table: &Table, memory: &M, value: Slot, f: u8, new: Slot) -> bool
    ensures { result ≡ where_field (program_of table.now) (M.Memory.model memory.now) value f (suits (field_type (program_of table.now) (M.Memory.model memory.now) value f) new) }
{
    see(table, memory, value, f).is_none_or(|field| new.suits(field.ty))
}
