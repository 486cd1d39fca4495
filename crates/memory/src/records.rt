// Memory's calls, written once over the records that a memory is made of.
ghost use Rattle.std.specs.Prelude.{◌≡◌, ◌<◌, ◌≤◌, ◌^◌};
ghost use Rattle.memory.specs.Model.{Store, Sized, count_of, object_at, cell_at, has_cell, with_object, with_cell};

use super::keeping::{Memory, WORD_END, present};
use super::object::Cell;
use table::fault::{Fault, Place, Refusal, require};

// One record an object: how many there are, and how each is read and written.
pub trait Records {
    // What the records hold.
    ghost held: { Self → Store };

    // How many records there is room for.
    fn room(&self) -> usize
        ensures { result ≡ (held self.now).capacity };

    // How many are in use.
    fn used(&self) -> usize
        ensures { result ≡ count_of (held self.now) };

    fn kind_at(&self, object: usize) -> u8
        requires there { object < count_of (held self.now) }
        ensures { result ≡ (object_at (held self.now) object).kind };

    fn cell_at(&self, object: usize, cell: usize) -> Cell
        requires there { object < count_of (held self.now) }
        requires eight { cell < 8 }
        ensures { result ≡ cell_at (held self.now) object cell };

    // Puts a blank record of a struct behind those in use.
    fn append(&mut self, kind: u8)
        requires free { count_of (held self.old) < (held self.old).capacity }
        requires known { kind ≤ 15 }
        ensures { held self.new ≡ with_object (held self.old) kind };

    fn set_cell(&mut self, object: usize, cell: usize, value: Cell)
        requires there { object < count_of (held self.old) }
        requires eight { cell < 8 }
        requires word { value.word < 2 ^ 31 }
        ensures { held self.new ≡ with_cell (held self.old) object cell value };

    ghost sized: { (x : Self) → Sized (held x) };
}

// Whether there is such a cell.
fn has_cell<R: Records>(records: &R, object: usize, cell: usize) -> bool
    ensures { result ≡ has_cell (R.held records.now) object cell }
{
    object < records.used() && cell < 8
}

impl<R: Records> Memory for R {
    ghost model = { R.held };

    fn capacity(&self) -> usize {
        self.room()
    }

    fn count(&self) -> usize {
        self.used()
    }

    fn kind(&self, object: usize) -> Result<u8, Fault> {
        present(object < self.used())?;
        Ok(self.kind_at(object))
    }

    fn load(&self, object: usize, cell: usize) -> Result<Cell, Fault> {
        present(has_cell(self, object, cell))?;
        Ok(self.cell_at(object, cell))
    }

    fn add(&mut self, kind: u8) -> Result<usize, Fault> {
        let number = self.used();
        present(kind <= 15)?;
        require(number < self.room(), Refusal::Full.at(Place::Nothing))?;
        self.append(kind);
        Ok(number)
    }

    fn store(&mut self, object: usize, cell: usize, word: u32) -> Result<(), Fault> {
        present(has_cell(self, object, cell) && word < WORD_END)?;
        self.set_cell(object, cell, Cell { word, mark: false });
        Ok(())
    }

    fn exchange(
        &mut self,
        object: usize,
        cell: usize,
        expected: u32,
        word: u32,
        mark: bool,
    ) -> Result<bool, Fault> {
        present(has_cell(self, object, cell) && expected < WORD_END && word < WORD_END)?;
        let old = self.cell_at(object, cell);
        let yes = !old.mark && old.word == expected;
        if yes {
            self.set_cell(object, cell, Cell { word, mark });
        }
        Ok(yes)
    }
}
