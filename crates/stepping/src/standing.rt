// The record that a frame stands before.
ghost use Rattle.std.specs.Prelude.{◌≡◌, ⊤, MatchOption};
ghost use Rattle.table.specs.Reading.{program_of};
ghost use Rattle.machine.specs.World.{op_at};
ghost use Rattle.stepping.specs.Calling.{op_of};

use machine::standing::Standing;
use machine::threads::Frame;
use table::Table;
use table::records::Record;

// The record that a frame stands before, with the frame; a function has at most 255.
pub(crate) fn op_at<'t>(table: &Table<'t>, frame: Frame) -> Option<(Standing, Record<'t>)>
    ensures value { op_of result ≡ op_at (program_of table.now) frame }
    ensures same { MatchOption result ⊤ (λ q. q.0 ≡ frame) }
{
    let function = frame.function as usize;
    if frame.index >= table.records(function) {
        return None;
    }
    let record = table.record(function, frame.index).ok()?;
    Some((Standing::new(frame), record))
}
