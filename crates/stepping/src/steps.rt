// One step of a machine's thread.
ghost use Rattle.std.specs.Prelude.{◌≡◌, ◌-◌, length, slice_index_or};
ghost use Rattle.list.specs.Held.{held, room};
ghost use Rattle.table.specs.Faults.{number_of};
ghost use Rattle.table.specs.Reading.{program_of};
ghost use Rattle.machine.specs.World.{world_of, no_task, is_running};
ghost use Rattle.machine.specs.Stacks.{tasks_of};
ghost use Rattle.machine.specs.Steps.{stepped, step_fault, after_step, put_out};
ghost use Rattle.stepping.specs.Committing.{out_of, passes, listed};

use super::committing::commit;
use super::turning::{Outcome, turn};
use list::Bounded;
use machine::threads::{Machine, Status};
use memory::keeping::Memory;
use table::fault::{Refusal, require};
use table::{Fault, Place, Table};

// Whether there is such a thread, and it is running.
fn runs(machine: &Machine, thread: usize) -> bool
    ensures { result ≡ is_running (slice_index_or (tasks_of machine.now) thread no_task).status }
{
    machine
        .threads
        .all()
        .get(thread)
        .is_some_and(|thread| thread.status == Status::Running)
}

// What refuses a step of a thread; the memory's own refusals name nothing.
fn refusal(thread: usize, refused: Refusal) -> Fault
    ensures { result ≡ step_fault thread (number_of refused) }
{
    let place = if refused.number() < 60 {
        Place::Nothing
    } else {
        Place::Thread(thread)
    };
    refused.at(place)
}

// The number that an outcome puts out.
fn output(outcome: Outcome) -> Option<u32>
    ensures { result ≡ out_of outcome }
{
    match outcome {
        Outcome::Goes(done) => done.out,
        _ => None,
    }
}

// Machine, memory and list are lent to each call: a rule of the project.

// Steps a thread, and appends what it puts out to the list. A step that is refused changes nothing.
pub fn step<M: Memory>(
    table: &Table,
    machine: &mut Machine,
    memory: &mut M,
    out: &mut Bounded<'_, u32>,
    thread: usize,
) -> Result<(), Fault>
    ensures value { result ≡ passes (stepped (program_of table.now) (room out.old - length (held out.old)) (world_of machine.old (M.Memory.model memory.old)) thread) }
    ensures world { world_of machine.new (M.Memory.model memory.new) ≡ after_step (world_of machine.old (M.Memory.model memory.old)) (stepped (program_of table.now) (room out.old - length (held out.old)) (world_of machine.old (M.Memory.model memory.old)) thread) }
    ensures out { held out.new ≡ listed (held out.old) (put_out (stepped (program_of table.now) (room out.old - length (held out.old)) (world_of machine.old (M.Memory.model memory.old)) thread)) }
    ensures room { room out.new ≡ room out.old }
{
    require(runs(machine, thread), refusal(thread, Refusal::NotRunning))?;
    let threads = machine.threads.all();
    let free = out.free();
    let turned = turn(table, memory, &threads[thread], threads.len(), free);
    let outcome = turned.map_err(|refused| refusal(thread, refused))?;
    commit(machine, thread, outcome);
    if let Some(number) = output(outcome) {
        out.push(number);
    }
    Ok(())
}
