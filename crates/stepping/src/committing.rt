// A turn put into the machine.
ghost use Rattle.std.specs.Prelude.{◌≡◌, ◌<◌, length, Ok, slice_index_or};
ghost use Rattle.machine.specs.World.{no_task, task_of};
ghost use Rattle.machine.specs.Stacks.{tasks_of, frames_of};
ghost use Rattle.stepping.specs.Turns.{FitsIn};
ghost use Rattle.stepping.specs.Committing.{task_after, tasks_after};

use super::turning::Outcome;
use machine::threads::{Machine, Status, Thread};

// Puts an outcome into its thread.
fn settle(thread: &mut Thread, outcome: Outcome)
    requires { FitsIn (length (frames_of thread.old)) 0 1 (Ok outcome) }
    ensures { task_of thread.new ≡ task_after (frames_of thread.old) outcome }
{
    match outcome {
        Outcome::Goes(done) => thread.go(done.status, done.frame),
        Outcome::Calls(passed) => {
            thread.go(Status::Running, passed.caller);
            thread.push(passed.callee);
        }
        Outcome::Forks(passed) => thread.go(Status::Running, passed.caller),
        Outcome::Resumes(frame) => thread.resume(frame),
        Outcome::Ends => thread.end(),
    }
}

// Puts an outcome into the machine: its thread, and the thread that a fork begins.
pub(crate) fn commit(machine: &mut Machine, thread: usize, outcome: Outcome)
    requires there { thread < length (tasks_of machine.old) }
    requires fits { FitsIn (length (slice_index_or (tasks_of machine.old) thread no_task).frames) (length (tasks_of machine.old)) 1 (Ok outcome) }
    ensures { tasks_of machine.new ≡ tasks_after (tasks_of machine.old) thread outcome }
{
    let threads: &mut [Thread] = &mut machine.threads.items;
    settle(&mut threads[thread], outcome);
    if let Outcome::Forks(passed) = outcome {
        machine.spawn(passed.callee);
    }
}
