// Frames that the table has.
ghost use Rattle.std.specs.Prelude.{◌≡◌, map};
ghost use Rattle.table.specs.Reading.{program_of};
ghost use Rattle.memory.specs.Model.{Store};
ghost use Rattle.machine.specs.World.{task_of, in_table};
ghost use Rattle.safety.specs.Owners.{all_in_table, frames_known};

use machine::threads::{Frame, Thread};
use table::fault::{Refusal, require};
use table::{Fault, Place, Table};

// Whether the table has the record that a frame stands before.
fn in_table(table: &Table, frame: &Frame) -> bool
    ensures { result ≡ in_table (program_of table.now) frame.now }
{
    let function = frame.function as usize;
    function < table.functions() && frame.index < table.records(function)
}

fn all_in_table(table: &Table, frames: &[Frame]) -> bool
    ensures { result ≡ all_in_table (program_of table.now) frames.now }
{
    frames.iter().all(|frame| in_table(table, frame))
}

// 69 at the first thread with a frame that the table lacks.
pub(crate) fn require_frames(table: &Table, threads: &[Thread]) -> Result<(), Fault>
    ensures { (m : Store) → result ≡ frames_known (program_of table.now) (record { tasks = map task_of threads.now; memory = m }) }
{
    // A loop, as in `open`: what `try_for_each` says of its calls proves too little.
    for (i, thread) in threads.iter().enumerate() {
        require(
            all_in_table(table, thread.frames.all()),
            Refusal::Unknown.at(Place::Thread(i)),
        )?;
    }
    Ok(())
}
