// The first pair of running threads that touch one var field of one object.
ghost use Rattle.std.specs.Prelude.{◌≡◌, suc, ◌+◌, ◌<◌, ◌≤◌, ⊤, [], ◌∷◌, map, length, MatchOption};
ghost use Rattle.std.specs.List.{position_from};
ghost use Rattle.table.specs.Reading.{program_of};
ghost use Rattle.machine.specs.World.{op_at, task_of, world_of};
ghost use Rattle.machine.specs.Reading.{touched};
ghost use Rattle.machine.specs.Clashes.{touch_by, touch, partner, clash_from, clashes};
ghost use Rattle.stepping.specs.Touching.{touches_too};

use super::standing::op_at;
use machine::clashing::Clash;
use machine::reading::see;
use machine::threads::{Frame, Machine, Slot, Status, Thread};
use memory::keeping::Memory;
use table::Table;
use table::records::Record;
use table::types::Mode;

// Table and memory are two parameters, as in `machine`.

// The object and the field that a get, take or set by this value touches, if the field is var.
fn touch_of<M: Memory>(table: &Table, memory: &M, value: Slot, f: u8) -> Option<(u32, u8)>
    ensures { result ≡ touched (program_of table.now) (M.Memory.model memory.now) value f }
{
    let Slot::Reference(object) = value else {
        return None;
    };
    let field = see(table, memory, value, f)?;
    (field.mode == Mode::Var).then_some((object, f))
}

// What the record that a frame stands before touches.
fn touch_from<M: Memory>(table: &Table, memory: &M, frame: Frame) -> Option<(u32, u8)>
    ensures { result ≡ touch_by (program_of table.now) (M.Memory.model memory.now) (frame ∷ []) (op_at (program_of table.now) frame) }
{
    match op_at(table, frame) {
        Some(
            (_, Record::Get { x, f, .. } | Record::Take { x, f, .. } | Record::Set { x, f, .. }),
        ) => touch_of(table, memory, frame.at(x), f),
        _ => None,
    }
}

// What a thread touches next: it has to run, and its newest frame counts.
fn touch<M: Memory>(table: &Table, memory: &M, thread: &Thread) -> Option<(u32, u8)>
    ensures { result ≡ touch (program_of table.now) (M.Memory.model memory.now) (task_of thread.now) }
{
    if thread.status != Status::Running {
        return None;
    }
    touch_from(table, memory, thread.frames.from_end(0)?)
}

// The first of these threads that touches this field of an object.
fn touching<M: Memory>(
    table: &Table,
    memory: &M,
    threads: &[Thread],
    touched: (u32, u8),
) -> Option<usize>
    ensures value { result ≡ position_from (λ t. touches_too touched (touch (program_of table.now) (M.Memory.model memory.now) (task_of t))) 0 threads.now }
    ensures within { MatchOption result ⊤ (λ i. i < length threads.now) }
{
    threads
        .iter()
        .position(|thread| touch(table, memory, thread) == Some(touched))
}

// The first of the threads behind this one that touches what it does.
fn partner<M: Memory>(
    table: &Table,
    memory: &M,
    lower: usize,
    thread: &Thread,
    behind: &[Thread],
) -> Option<Clash>
    requires { lower + length behind.now < 8 }
    ensures { result ≡ partner (program_of table.now) (M.Memory.model memory.now) lower (touch (program_of table.now) (M.Memory.model memory.now) (task_of thread.now)) (suc lower) (map task_of behind.now) }
{
    let (object, field) = touch(table, memory, thread)?;
    let between = touching(table, memory, behind, (object, field))?;
    Some(Clash {
        lower,
        higher: lower + 1 + between,
        object,
        field,
    })
}

fn first_pair<M: Memory>(table: &Table, memory: &M, threads: &[Thread]) -> Option<Clash>
    requires { length threads.now ≤ 8 }
    ensures { result ≡ clash_from (program_of table.now) (M.Memory.model memory.now) 0 (map task_of threads.now) }
{
    // A `find_map` would ask for the same part by place, and read no plainer.
    for (lower, thread) in threads.iter().enumerate() {
        if let Some(found) = partner(table, memory, lower, thread, &threads[lower + 1..]) {
            return Some(found);
        }
    }
    None
}

// The first pair of a machine's threads that touch one var field: by the lower thread, then by the higher.
pub fn clash<M: Memory>(table: &Table, machine: &Machine, memory: &M) -> Option<Clash>
    ensures { result ≡ clashes (program_of table.now) (world_of machine.now (M.Memory.model memory.now)) }
{
    first_pair(table, memory, machine.threads.all())
}
