// What a memory keeps: what each call answers, and what it leaves.
ghost use Rattle.std.specs.Prelude.{◌≡◌};
ghost use Rattle.memory.specs.Model.{Store, Sized, there, room_of, count_of, kind_of, add_of, after_add, load_of, store_of, after_store, exchange_of, after_exchange};

use super::object::Cell;
use table::fault::{Fault, Place, Refusal, require};

// The most objects that a memory may have room for.
pub const LIMIT: usize = 1024;

// Words lie below this.
pub const WORD_END: u32 = 0x8000_0000;

// Refuses where an object, cell, struct or word that a call names is not there.
pub fn present(holds: bool) -> Result<(), Fault>
    ensures { result ≡ there holds }
{
    require(holds, Refusal::Absent.at(Place::Nothing))
}

// Whether a memory may be made with this capacity: asked before any is made.
pub fn allowed(capacity: usize) -> Result<(), Fault>
    ensures { result ≡ room_of capacity }
{
    require(
        (1..=LIMIT).contains(&capacity),
        Refusal::Capacity.at(Place::Nothing),
    )
}

pub trait Memory {
    // The capacity, and the objects in the order of their numbers.
    ghost model: { Self → Store };

    fn capacity(&self) -> usize
        ensures value { result ≡ (model self.now).capacity }
        ensures sized { Sized (model self.now) };

    fn count(&self) -> usize
        ensures value { result ≡ count_of (model self.now) }
        ensures sized { Sized (model self.now) };

    fn kind(&self, object: usize) -> Result<u8, Fault>
        ensures { result ≡ kind_of (model self.now) object };

    fn load(&self, object: usize, cell: usize) -> Result<Cell, Fault>
        ensures { result ≡ load_of (model self.now) object cell };

    // Appends an object of a struct, and answers its number.
    fn add(&mut self, kind: u8) -> Result<usize, Fault>
        ensures value { result ≡ add_of (model self.old) kind }
        ensures after { model self.new ≡ after_add (model self.old) kind }
        ensures sized { Sized (model self.new) };

    // Writes one word, unmarked.
    fn store(&mut self, object: usize, cell: usize, word: u32) -> Result<(), Fault>
        ensures value { result ≡ store_of (model self.old) object cell word }
        ensures after { model self.new ≡ after_store (model self.old) object cell word };

    // Writes word and mark where the cell is unmarked and holds the expected word, and says whether it did.
    fn exchange(
        &mut self,
        object: usize,
        cell: usize,
        expected: u32,
        word: u32,
        mark: bool,
    ) -> Result<bool, Fault>
        ensures value { result ≡ exchange_of (model self.old) object cell expected word }
        ensures after { model self.new ≡ after_exchange (model self.old) object cell expected word mark };
}
