// What slots hold.
ghost use Rattle.std.specs.Prelude.{◌≡◌, ℕ, if◌then◌else◌, Ok, Err};
ghost use Rattle.table.specs.Faults.{numbered};
ghost use Rattle.memory.specs.Model.{is_word};
ghost use Rattle.machine.specs.Values.{holds_number, is_reference, word_of, value_of, suits, left};

use super::threads::Slot;
use memory::keeping::WORD_END;
use table::fault::{Refusal, require};
use table::types::{Kind, Ty};

impl Slot {
    // As `is_reference`, a word of the definitions: `==` would need the number too.
    pub fn holds_number(self) -> bool
        ensures { result ≡ holds_number self }
    {
        matches!(self, Slot::Number(_))
    }

    // Null counts as a reference.
    pub fn is_reference(self) -> bool
        ensures { result ≡ is_reference self }
    {
        matches!(self, Slot::Null | Slot::Reference(_))
    }

    // The word of a value in a cell, where 0 is null and o + 1 is object o.
    pub fn word(self) -> u64
        ensures { result ≡ word_of self }
    {
        match self {
            Slot::Empty | Slot::Null => 0,
            Slot::Number(number) => number as u64,
            Slot::Reference(object) => object as u64 + 1,
        }
    }

    // The same, where a cell can hold it.
    pub fn cell_word(self) -> Result<u32, Refusal>
        ensures { numbered result ≡ (if is_word (word_of self) then Ok (word_of self) else Err 51) }
    {
        let word = self.word();
        require(word < WORD_END as u64, Refusal::Absent)?;
        Ok(word as u32)
    }

    // What a cell of a type holds.
    pub fn of_cell(ty: Ty, word: u32) -> Slot
        ensures { result ≡ value_of ty word }
    {
        if ty.kind == Kind::Number {
            return Slot::Number(word);
        }
        word.checked_sub(1).map_or(Slot::Null, Slot::Reference)
    }

    // A number for a number, and a reference for a reference.
    pub fn suits(self, ty: Ty) -> bool
        ensures { result ≡ suits ty self }
    {
        if ty.kind == Kind::Number {
            self.holds_number()
        } else {
            self.is_reference()
        }
    }

    // What is left in a slot whose value goes to a place of a type.
    pub fn left(self, ty: Ty) -> Slot
        ensures { result ≡ left ty self }
    {
        if matches!(ty.kind, Kind::Owned | Kind::Pristine) {
            Slot::Null
        } else {
            self
        }
    }
}
