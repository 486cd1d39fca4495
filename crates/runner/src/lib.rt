// Runs of a machine, with the promise that an accepted table keeps on every run.
#![tactic(auto)]

ghost use Rattle.std.specs.Prelude.{◌≡◌, ◌≤◌, length, Result};
ghost use Rattle.list.specs.Held.{held, room};
ghost use Rattle.table.specs.Reading.{program_of};
ghost use Rattle.machine.specs.World.{world_of};
ghost use Rattle.machine.specs.Steps.{Taken};
ghost use Rattle.stepping.specs.Committing.{passes};
ghost use Rattle.safety.specs.Runs.{took, ran_within, ran, rounds};
ghost use Rattle.safety.specs.Safe.{StaysSafe};
ghost use Rattle.runner.specs.Runners.{found};

use list::Bounded;
use machine::threads::Machine;
use memory::keeping::Memory;
use stepping::step;
use table::{Fault, Table};

// How many steps an answer is.
fn counted(answer: Result<(), Fault>) -> usize
    ensures value { (s : Result Taken Fault) → answer ≡ passes s → result ≡ took s }
    ensures most { result ≤ 1 }
{
    usize::from(answer.is_ok())
}

// Machine, memory and list are lent to each call: a rule of the project.

// Steps these threads in turn until so many steps were taken, and says how many were. A step that is refused changes nothing.
//
// For an accepted table and a machine that was started on an empty memory, however it was stepped since: no step is ever stuck, no two threads clash, and no
// object has two owners, now and after whatever steps come (`safe`).
pub fn run<M: Memory>(
    table: &Table,
    machine: &mut Machine,
    memory: &mut M,
    out: &mut Bounded<'_, u32>,
    threads: &[usize],
    limit: usize,
) -> usize
    ensures taken { result ≡ (ran_within (program_of table.now) (room out.old) limit (found machine.old (M.Memory.model memory.old) out.old) threads.now).taken }
    ensures left { found machine.new (M.Memory.model memory.new) out.new ≡ (ran_within (program_of table.now) (room out.old) limit (found machine.old (M.Memory.model memory.old) out.old) threads.now).ran }
    ensures all { length threads.now ≤ limit → found machine.new (M.Memory.model memory.new) out.new ≡ ran (program_of table.now) (room out.old) (found machine.old (M.Memory.model memory.old) out.old) threads.now }
    ensures room { room out.new ≡ room out.old }
    ensures safe { StaysSafe (program_of table.now) (world_of machine.old (M.Memory.model memory.old)) (world_of machine.new (M.Memory.model memory.new)) }
{
    let mut taken = 0;
    // A loop: steps change the machine, and of a closure that changes what it captures a chain says nothing.
    for thread in threads {
        if taken >= limit {
            return taken;
        }
        taken += counted(step(table, machine, memory, out, *thread));
    }
    taken
}

// Steps threads 0 to 7 in turn until a round is all refusals, or until so many steps were taken, and says how many were.
pub fn rounds<M: Memory>(
    table: &Table,
    machine: &mut Machine,
    memory: &mut M,
    out: &mut Bounded<'_, u32>,
    limit: usize,
) -> usize
    ensures taken { result ≡ (rounds limit (program_of table.now) (room out.old) limit (found machine.old (M.Memory.model memory.old) out.old)).taken }
    ensures left { found machine.new (M.Memory.model memory.new) out.new ≡ (rounds limit (program_of table.now) (room out.old) limit (found machine.old (M.Memory.model memory.old) out.old)).ran }
    ensures room { room out.new ≡ room out.old }
    ensures safe { StaysSafe (program_of table.now) (world_of machine.old (M.Memory.model memory.old)) (world_of machine.new (M.Memory.model memory.new)) }
{
    let mut taken = 0;
    // No range: what is left falls by as many as a round took.
    while taken < limit {
        let more = run(
            table,
            machine,
            memory,
            out,
            &[0, 1, 2, 3, 4, 5, 6, 7],
            limit - taken,
        );
        if more == 0 {
            return taken;
        }
        taken += more;
    }
    taken
}
