// A test as a record: yes goes to the next record, no past the yes block.
ghost use Rattle.std.specs.Prelude.{◌≡◌, ℕ};
ghost use Rattle.table.specs.Records.{Ask};
ghost use Rattle.table.specs.Faults.{numbered};
ghost use Rattle.table.specs.Reading.{program_of};
ghost use Rattle.machine.specs.Alone.{alone, done_of, memory_after};
ghost use Rattle.machine.specs.Tests.{trial};
ghost use Rattle.machine.specs.Trying.{answered, answered_store};

use super::frames::Done;
use super::standing::Standing;
use super::tests;
use super::tests::Answer;
use super::threads::Frame;
use memory::keeping::Memory;
use table::Table;
use table::fault::Refusal;
use table::records::Test;

// What a test comes to.
fn answer<M: Memory>(
    table: &Table,
    memory: &mut M,
    frame: Frame,
    test: Test,
) -> Result<Answer, Refusal>
    ensures value { numbered result ≡ answered frame (trial (program_of table.now) (M.Memory.model memory.old) frame.slots test) }
    ensures after { M.Memory.model memory.new ≡ answered_store (M.Memory.model memory.old) (trial (program_of table.now) (M.Memory.model memory.old) frame.slots test) }
{
    // An arm an op: the ops are a closed enum, and a closure for each would only hide which.
    match test {
        Test::Nil { x } => tests::nil(frame, x),
        Test::Same { x, y } => tests::same(frame, x, y),
        Test::Equal { x, y } => tests::equal(frame, x, y),
        Test::Less { x, y } => tests::less(frame, x, y),
        Test::Link { x, f, y, g } => tests::link(table, memory, frame, x, f, y, g),
        Test::Unlink { x, f, y, g } => tests::unlink(table, memory, frame, x, f, y, g),
        Test::Swap { x, f, y, w } => tests::swap(table, memory, frame, x, f, y, w),
        Test::Try { x, f, y } => tests::attempt(table, memory, frame, x, f, y),
        Test::Fix { x, f, y } => tests::fix(table, memory, frame, x, f, y),
        Test::Stable { x, f } => tests::stable(table, memory, frame, x, f),
    }
}

impl Standing {
    // Halts, goes on with what a yes leaves, or goes past the yes block.
    pub fn ask<M: Memory>(
        self,
        table: &Table,
        memory: &mut M,
        test: Test,
        yes: u16,
        no: u16,
    ) -> Result<Done, Refusal>
        ensures value { (room : ℕ) → numbered result ≡ done_of (alone (program_of table.now) (M.Memory.model memory.old) self room (Ask test yes no)) }
        ensures after { (room : ℕ) → M.Memory.model memory.new ≡ memory_after (M.Memory.model memory.old) (alone (program_of table.now) (M.Memory.model memory.old) self room (Ask test yes no)) }
    {
        let frame = self.frame();
        match answer(table, memory, frame, test)? {
            Answer::Halts => Ok(frame.halts()),
            Answer::Yes(changed) => Ok(changed.goes(self.next())),
            Answer::No => Ok(frame.goes(self.past(yes as u32))),
        }
    }
}
