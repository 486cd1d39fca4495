// A list of calls made of any memory.
ghost use Rattle.std.specs.Prelude.{◌≡◌};
ghost use Rattle.memory.specs.Calls.{call_of, after_call, accepted_of, after_calls, Keeps};

use super::keeping::Memory;

// A call that may alter a memory.
#[derive(Clone, Copy, Debug, PartialEq, Eq, Drop)]
pub enum Call {
    Add {
        kind: u8,
    },
    Store {
        object: usize,
        cell: usize,
        word: u32,
    },
    Exchange {
        object: usize,
        cell: usize,
        expected: u32,
        word: u32,
        mark: bool,
    },
}

// Makes one call, and says whether it was not refused.
fn make<M: Memory>(memory: &mut M, call: Call) -> bool
    ensures value { result ≡ call_of (M.Memory.model memory.old) call }
    ensures after { M.Memory.model memory.new ≡ after_call (M.Memory.model memory.old) call }
{
    match call {
        Call::Add { kind } => memory.add(kind).is_ok(),
        Call::Store { object, cell, word } => memory.store(object, cell, word).is_ok(),
        Call::Exchange {
            object,
            cell,
            expected,
            word,
            mark,
        } => memory.exchange(object, cell, expected, word, mark).is_ok(),
    }
}

// Makes every call in turn, and answers how many were not refused.
pub fn replay<M: Memory>(memory: &mut M, calls: &[Call]) -> usize
    ensures value { result ≡ accepted_of (M.Memory.model memory.old) calls.now }
    ensures after { M.Memory.model memory.new ≡ after_calls (M.Memory.model memory.old) calls.now }
    ensures keeps { Keeps (M.Memory.model memory.old) (M.Memory.model memory.new) calls.now }
{
    let mut accepted = 0;
    // A loop: the calls change the memory, and of a closure that changes what it captures a chain says nothing.
    for call in calls {
        accepted += usize::from(make(memory, *call));
    }
    accepted
}
