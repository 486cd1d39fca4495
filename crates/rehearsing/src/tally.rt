// How many threads of a machine ended, halted and run, and how many steps were taken.
ghost use Rattle.std.specs.Prelude.{◌≡◌, map, Some};
ghost use Rattle.machine.specs.World.{task_of};
ghost use Rattle.machine.specs.Stacks.{tasks_of};
ghost use Rattle.rehearsing.specs.Reports.{how_many, tallied, tally_text};

use machine::threads::{Machine, Status, Thread};
use std::fmt;

#[derive(Clone, Copy, Debug, PartialEq, Eq, Drop)]
pub struct Tally {
    pub ended: usize,
    pub halted: usize,
    pub running: usize,
    pub steps: usize,
}

// How many of these threads have a status.
fn how_many(threads: &[Thread], status: Status) -> usize
    ensures { result ≡ how_many status (map task_of threads.now) }
{
    threads.iter().filter(|t| t.status == status).count()
}

impl Tally {
    pub fn of(machine: &Machine, steps: usize) -> Tally
        ensures { result ≡ tallied (tasks_of machine.now) steps }
    {
        let threads = machine.threads.all();
        Tally {
            ended: how_many(threads, Status::Ended),
            halted: how_many(threads, Status::Halted),
            running: how_many(threads, Status::Running),
            steps,
        }
    }
}

impl fmt::Display for Tally {
    ghost output = { λ x. Some (tally_text x) };

    fn fmt<W: fmt::Write>(&self, f: &mut fmt::Formatter<W>) -> fmt::Result {
        write!(
            f,
            "ended {} halted {} running {} steps {}",
            self.ended, self.halted, self.running, self.steps
        )
    }
}
