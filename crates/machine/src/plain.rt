// The records that lead on within their frame and ask the memory for no field.
ghost use Rattle.std.specs.Prelude.{◌≡◌, ℕ, Ok};
ghost use Rattle.table.specs.Faults.{numbered};
ghost use Rattle.table.specs.Program.{Program};
ghost use Rattle.memory.specs.Model.{Store};
ghost use Rattle.table.specs.Records.{New, Null, Int, Share, Own, Add, Join, Emit};
ghost use Rattle.table.specs.Reading.{program_of};
ghost use Rattle.machine.specs.Alone.{alone, done_of, memory_after};

use super::frames::Done;
use super::standing::Standing;
use super::threads::Slot;
use memory::keeping::Memory;
use table::Table;
use table::fault::{Refusal, require};

impl Standing {
    pub fn null(self, table: &Table, z: u8, s: u8) -> Result<Done, Refusal>
        ensures { (m : Store) (room : ℕ) → numbered result ≡ done_of (alone (program_of table.now) m self room (Null z s)) }
    {
        // Each op that binds asks for its slot in this line: a function for it would be as long at each.
        require(z < 16, Refusal::NoOperand)?;
        require((s as usize) < table.structs(), Refusal::NoPart)?;
        Ok(self.bind(z, Slot::Null))
    }

    pub fn int(self, z: u8, number: u32) -> Result<Done, Refusal>
        ensures { (p : Program) (m : Store) (room : ℕ) → numbered result ≡ done_of (alone p m self room (Int z number)) }
    {
        require(z < 16, Refusal::NoOperand)?;
        Ok(self.bind(z, Slot::Number(number)))
    }

    pub fn share(self, z: u8, x: u8) -> Result<Done, Refusal>
        ensures { (p : Program) (m : Store) (room : ℕ) → numbered result ≡ done_of (alone p m self room (Share z x)) }
    {
        require(z < 16, Refusal::NoOperand)?;
        let [value] = self.frame().operands([x])?;
        Ok(self.bind(z, value))
    }

    pub fn own(self, z: u8, x: u8) -> Result<Done, Refusal>
        ensures { (p : Program) (m : Store) (room : ℕ) → numbered result ≡ done_of (alone p m self room (Own z x)) }
    {
        require(z < 16, Refusal::NoOperand)?;
        let [value] = self.frame().references([x])?;
        Ok(self.with(x, Slot::Null).bind(z, value))
    }

    pub fn add(self, z: u8, x: u8, y: u8) -> Result<Done, Refusal>
        ensures { (p : Program) (m : Store) (room : ℕ) → numbered result ≡ done_of (alone p m self room (Add z x y)) }
    {
        require(z < 16, Refusal::NoOperand)?;
        let [a, b] = self.frame().operands([x, y])?;
        require(a.holds_number() && b.holds_number(), Refusal::Sort)?;
        let sum = (a.word() + b.word()) % 0x8000_0000;
        Ok(self.bind(z, Slot::Number(sum as u32)))
    }

    pub fn join(self, number: u32) -> Done
        ensures { (p : Program) (m : Store) (room : ℕ) → Ok result ≡ done_of (alone p m self room (Join number)) }
    {
        self.frame().goes(self.past(number))
    }

    pub fn emit(self, x: u8, room: usize) -> Result<Done, Refusal>
        ensures { (p : Program) (m : Store) → numbered result ≡ done_of (alone p m self room (Emit x)) }
    {
        let [Slot::Number(number)] = self.frame().operands([x])? else {
            return Err(Refusal::Sort);
        };
        require(room > 0, Refusal::List)?;
        Ok(Done {
            out: Some(number),
            ..self.frame().goes(self.next())
        })
    }

    // `new`, of a struct's object.
    pub fn create<M: Memory>(
        self,
        table: &Table,
        memory: &mut M,
        z: u8,
        s: u8,
    ) -> Result<Done, Refusal>
        ensures value { (room : ℕ) → numbered result ≡ done_of (alone (program_of table.now) (M.Memory.model memory.old) self room (New z s)) }
        ensures after { (room : ℕ) → M.Memory.model memory.new ≡ memory_after (M.Memory.model memory.old) (alone (program_of table.now) (M.Memory.model memory.old) self room (New z s)) }
    {
        require(z < 16, Refusal::NoOperand)?;
        require((s as usize) < table.structs(), Refusal::NoPart)?;
        let object = memory.add(s).map_err(|_| Refusal::NoRoom)?;
        Ok(self.bind(z, Slot::Reference(object as u32)))
    }
}
