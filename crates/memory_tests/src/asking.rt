// One question to any memory, answered by a number.
ghost use Rattle.std.specs.Prelude.{◌≡◌};
ghost use Rattle.memory_tests.specs.Asked.{answer_of, after_asking};

use memory::keeping::Memory;
use table::fault::Fault;

#[derive(Clone, Copy, Debug, PartialEq, Eq, Drop)]
pub enum Question {
    Capacity,
    Count,
    Kind(usize),
    Load(usize, usize),
    Add(u8),
    Store(usize, usize, u32),
    Exchange(usize, usize, u32, u32, bool),
}

// One pair for all answers, so that those of two memories compare. A cell is answered by its word and mark; what has no number by 0, and what is neither marked nor a yes by false.
pub fn ask<M: Memory>(memory: &mut M, question: Question) -> Result<(usize, bool), Fault>
    ensures value { result ≡ answer_of (M.Memory.model memory.old) question }
    ensures after { M.Memory.model memory.new ≡ after_asking (M.Memory.model memory.old) question }
{
    match question {
        Question::Capacity => Ok((memory.capacity(), false)),
        Question::Count => Ok((memory.count(), false)),
        Question::Kind(object) => Ok((usize::from(memory.kind(object)?), false)),
        Question::Load(object, cell) => {
            let held = memory.load(object, cell)?;
            Ok((held.word as usize, held.mark))
        }
        Question::Add(kind) => Ok((memory.add(kind)?, false)),
        Question::Store(object, cell, word) => {
            memory.store(object, cell, word)?;
            Ok((0, false))
        }
        Question::Exchange(object, cell, expected, word, mark) => {
            Ok((0, memory.exchange(object, cell, expected, word, mark)?))
        }
    }
}
