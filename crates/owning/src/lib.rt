// How many slots own an object of a running table.
#![tactic(auto)]

ghost use Rattle.std.specs.Prelude.{◌≡◌, length};
ghost use Rattle.table.specs.Reading.{program_of};
ghost use Rattle.machine.specs.World.{world_of};
ghost use Rattle.safety.specs.Owners.{owners};

use counting::Owning;
use known::require_frames;
use machine::threads::Machine;
use memory::keeping::Memory;
use rules::check;
use table::fault::{Refusal, require};
use table::types::Ty;
use table::{Fault, Place, Table};

mod counting;
mod known;

// The slots, in any frame of any thread, that own the object. It is refused as the check is, in scratch for 128 types; then 63, no such object;
// then 69, a thread has a frame that the table lacks.
pub fn owners<M: Memory>(
    table: &Table,
    machine: &Machine,
    memory: &M,
    object: usize,
    scratch: &mut [Ty],
) -> Result<usize, Fault>
    ensures { result ≡ owners (length scratch.old) (program_of table.now) (world_of machine.now (M.Memory.model memory.now)) object }
{
    let Some(scratch) = scratch.first_chunk_mut::<128>() else {
        return Err(Refusal::Scratch.at(Place::Nothing));
    };
    check(table, scratch)?;
    require(
        object < memory.count(),
        Refusal::NoObject.at(Place::Nothing),
    )?;
    let threads = machine.threads.all();
    require_frames(table, threads)?;
    Ok(Owning { table, object }.in_threads(threads, scratch))
}
