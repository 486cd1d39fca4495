// A turn of one thread: what its record does to its newest frame, and to the memory.
ghost use Rattle.std.specs.Prelude.{◌≡◌, length, Err};
ghost use Rattle.table.specs.declared.fault.Refusal.{Refusal};
ghost use Rattle.table.specs.Faults.{numbered};
ghost use Rattle.table.specs.Records.{meant};
ghost use Rattle.table.specs.Reading.{program_of};
ghost use Rattle.machine.specs.Alone.{alone, memory_after};
ghost use Rattle.machine.specs.Stacks.{frames_of};
ghost use Rattle.machine.specs.Ways.{standing};
ghost use Rattle.machine.specs.Steps.{taking};
ghost use Rattle.stepping.specs.Turns.{led, acted, made, FitsIn};

use super::calls;
use super::calls::Passed;
use super::standing::op_at;
use machine::frames::Done;
use machine::standing::Standing;
use machine::threads::{Frame, Thread};
use memory::keeping::Memory;
use table::Table;
use table::fault::Refusal;
use table::records::Record;

// What becomes of a thread: its newest frame goes on or halts; calls; forks; returns to the frame that waits; or ends the thread.
#[derive(Clone, Copy, Drop)]
pub enum Outcome {
    Goes(Done),
    Calls(Passed),
    Forks(Passed),
    Resumes(Frame),
    Ends,
}

impl Outcome {
    // A frame that waits is resumed, and without one the thread ends.
    fn back(resumed: Option<Frame>) -> Outcome
        ensures { result ≡ led resumed }
    {
        resumed.map_or(Outcome::Ends, Outcome::Resumes)
    }
}

// A thread that steps: its newest frame, the one that waits for it, how many frames it has; how many threads there are, and the room of the list.
#[derive(Clone, Copy, Drop)]
pub struct Turning {
    pub at: Standing,
    pub waiting: Option<Frame>,
    pub depth: usize,
    pub threads: usize,
    pub room: usize,
}

// What a record does.
fn act<M: Memory>(
    table: &Table,
    memory: &mut M,
    turning: Turning,
    said: Record,
) -> Result<Outcome, Refusal>
    ensures value { numbered result ≡ acted (program_of table.now) (M.Memory.model memory.old) turning.at turning.waiting turning.depth turning.threads turning.room (meant said.entry) }
    ensures after { M.Memory.model memory.new ≡ memory_after (M.Memory.model memory.old) (alone (program_of table.now) (M.Memory.model memory.old) turning.at turning.room (meant said.entry)) }
{
    let at = turning.at;
    let frame = at.frame();
    // An arm an op: the ops are a closed enum, and a closure for each would only hide which.
    match said {
        Record::New { z, s } => at.create(table, memory, z, s).map(Outcome::Goes),
        Record::Null { z, s } => at.null(table, z, s).map(Outcome::Goes),
        Record::Int { z, number } => at.int(z, number).map(Outcome::Goes),
        Record::Share { z, x } => at.share(z, x).map(Outcome::Goes),
        Record::Own { z, x } => at.own(z, x).map(Outcome::Goes),
        Record::Get { z, x, f } => at.get(table, memory, z, x, f).map(Outcome::Goes),
        Record::Take { z, x, f } => at.take(table, memory, z, x, f).map(Outcome::Goes),
        Record::Set { z, x, f, y } => at.set(table, memory, z, x, f, y).map(Outcome::Goes),
        Record::Add { z, x, y } => at.add(z, x, y).map(Outcome::Goes),
        Record::Call { z, n, args } => {
            calls::call(table, frame, turning.depth, z, n, args).map(Outcome::Calls)
        }
        Record::Fork { n, args } => {
            calls::fork(table, at, turning.threads, n, args).map(Outcome::Forks)
        }
        Record::Return { x } => {
            calls::give_back(table, frame, turning.waiting, x).map(Outcome::back)
        }
        Record::Again { args } => calls::again(table, frame, args).map(Outcome::Goes),
        Record::Join { number } => Ok(Outcome::Goes(at.join(number))),
        Record::Emit { x } => at.emit(x, turning.room).map(Outcome::Goes),
        Record::Ask { test, yes, no } => at.ask(table, memory, test, yes, no).map(Outcome::Goes),
    }
}

// A turn of a thread: 70 where it stands before no record. What is refused leaves the memory as it was.
pub(crate) fn turn<M: Memory>(
    table: &Table,
    memory: &mut M,
    thread: &Thread,
    threads: usize,
    room: usize,
) -> Result<Outcome, Refusal>
    ensures value { made (frames_of thread.now) (M.Memory.model memory.new) (numbered result) ≡ taking (program_of table.now) (M.Memory.model memory.old) (frames_of thread.now) threads room (standing (program_of table.now) (frames_of thread.now)) }
    ensures kept { (r : Refusal) → result ≡ Err r → M.Memory.model memory.new ≡ M.Memory.model memory.old }
    ensures fits { FitsIn (length (frames_of thread.now)) threads room (numbered result) }
{
    let frame = thread.frames.from_end(0).ok_or(Refusal::NoRecord)?;
    // `?` on a record is beyond the check of borrows; a pattern (at, said) hides from the proof that `act` gets what `op_at` gave.
    let Some(stood) = op_at(table, frame) else {
        return Err(Refusal::NoRecord);
    };
    let turning = Turning {
        at: stood.0,
        waiting: thread.frames.from_end(1),
        depth: thread.frames.len(),
        threads,
        room,
    };
    act(table, memory, turning, stood.1)
}
