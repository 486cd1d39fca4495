// A machine at the start of a table.
ghost use Rattle.std.specs.Prelude.{◌≡◌};
ghost use Rattle.machine.specs.World.{started};
ghost use Rattle.stepping.specs.Starting.{made_of};

use list::Front;
use machine::threads::{Frame, Machine, THREADS, Thread};
use memory::keeping::Memory;
use table::fault::{Refusal, require};
use table::{Fault, Place};

// Thread 0, at the start of function 0. 60: the memory has objects.
pub fn start<M: Memory>(memory: &M) -> Result<Machine, Fault>
    ensures { made_of (M.Memory.model memory.now) result ≡ started (M.Memory.model memory.now) }
{
    require(memory.count() == 0, Refusal::InUse.at(Place::Nothing))?;
    Ok(Machine {
        threads: Front {
            items: [Thread::begun(Frame::FIRST); THREADS],
            len: 1,
        },
    })
}
