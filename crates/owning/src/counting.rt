// Slots that own an object, by the types in scope before each frame's record.
ghost use Rattle.std.specs.Prelude.{◌≡◌, ℕ, ◌*◌, ◌≤◌, true, map, length, Ok, ◌==◌};
ghost use Rattle.table.specs.Reading.{program_of};
ghost use Rattle.rules.specs.Scopes.{verdict};
ghost use Rattle.memory.specs.Model.{Store};
ghost use Rattle.machine.specs.World.{task_of, in_table};
ghost use Rattle.safety.specs.Owners.{owns, slots_owning, frames_owning, tasks_owning, types_before, all_in_table, frames_known};

use machine::threads::{Frame, Slot, Thread};
use rules::scope_at;
use table::Table;
use table::types::{Kind, Ty};

// Whether a slot of this type refers to the object, and the type is owned or pristine.
fn owns(ty: Ty, slot: Slot, object: usize) -> bool
    ensures { result ≡ (owns ty slot object == 1) }
{
    let Slot::Reference(held) = slot else {
        return false;
    };
    (ty.kind == Kind::Owned || ty.kind == Kind::Pristine) && held as usize == object
}

fn slots_owning(types: &[Ty], slots: &[Slot], object: usize) -> usize
    ensures value { result ≡ slots_owning types.now slots.now object }
    ensures few { result ≤ length slots.now }
{
    types
        .iter()
        .zip(slots.iter())
        .filter(|pair| owns(*pair.0, *pair.1, object))
        .count()
}

// An accepted table, and the object whose owners are counted.
#[derive(Drop)]
pub(crate) struct Owning<'a, 't> {
    pub table: &'a Table<'t>,
    pub object: usize,
    ghost accepted: { verdict (program_of table.now) ≡ Ok tt },
}

// Each brings types in scope to the front of the scratch, so the sums are loops: of a closure that writes, a chain says nothing.
impl Owning<'_, '_> {
    fn in_frame(&self, frame: &Frame, scratch: &mut [Ty; 128]) -> usize
        requires { in_table (program_of self.now.table.now) frame.now ≡ true }
        ensures value { result ≡ slots_owning (types_before (program_of self.now.table.now) frame.now.function frame.now.index) frame.now.slots self.now.object }
        ensures few { result ≤ 16 }
    {
        let scratch: &mut [Ty] = scratch;
        let depth = scope_at(self.table, frame.function as usize, frame.index, scratch).unwrap_or(
            0,
        );
        slots_owning(&scratch[..depth], &frame.slots, self.object)
    }

    fn in_frames(&self, frames: &[Frame], scratch: &mut [Ty; 128]) -> usize
        requires known { all_in_table (program_of self.now.table.now) frames.now ≡ true }
        requires few { length frames.now ≤ 8 }
        ensures value { result ≡ frames_owning (types_before (program_of self.now.table.now)) frames.now self.now.object }
        ensures few { result ≤ 16 * length frames.now }
    {
        let mut total = 0;
        for frame in frames {
            total += self.in_frame(frame, scratch);
        }
        total
    }

    // Of all threads, where the table has all their frames.
    pub(crate) fn in_threads(&self, threads: &[Thread], scratch: &mut [Ty; 128]) -> usize
        requires known { (m : Store) → frames_known (program_of self.now.table.now) (record { tasks = map task_of threads.now; memory = m }) ≡ Ok tt }
        requires few { length threads.now ≤ 8 }
        ensures { result ≡ tasks_owning (types_before (program_of self.now.table.now)) (map task_of threads.now) self.now.object }
    {
        let mut total = 0;
        for thread in threads {
            total += self.in_frames(thread.frames.all(), scratch);
        }
        total
    }
}
