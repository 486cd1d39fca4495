// The tests: what each answers, and what a yes leaves.
ghost use Rattle.std.specs.Prelude.{◌≡◌, ℕ, true, ◌&&◌, ◌||◌, [], ◌∷◌, Ok, Err, if◌then◌else◌};
ghost use Rattle.table.specs.declared.records.Test.TheVariants.{Nil, Same, Equal, Less, Link, Unlink, Swap, Try, Fix, Stable};
ghost use Rattle.table.specs.Faults.{numbered};
ghost use Rattle.table.specs.Program.{Program};
ghost use Rattle.table.specs.Reading.{program_of};
ghost use Rattle.memory.specs.Model.{Store, has_cell};
ghost use Rattle.table.specs.declared.fault.Refusal.TheVariants.{NoOperand, Sort};
ghost use Rattle.machine.specs.Values.{is_null, holds_number, word_of, at, given};
ghost use Rattle.machine.specs.Reading.{refers};
ghost use Rattle.machine.specs.Seeing.{targeted, InMemory, pair_at, PairInMemory};
ghost use Rattle.machine.specs.Tests.{trial, fields_ask};
ghost use Rattle.machine.specs.Trying.{asked, answered, answered_store, settled, settled_store};

use super::reading::{Pair, Target, refers, resolve, resolve_both};
use super::threads::{Frame, Slot};
use memory::keeping::Memory;
use table::Table;
use table::fault::{Refusal, require};

// What a test came to: its thread halts, or it says yes with a frame whose slots may have changed, or no.
#[derive(Clone, Copy, Drop)]
pub enum Answer {
    Halts,
    Yes(Frame),
    No,
}

fn told(frame: Frame, says: bool) -> Answer
    ensures { result ≡ (if says then Answer.Yes frame else Answer.No) }
{
    if says { Answer::Yes(frame) } else { Answer::No }
}

pub(crate) fn nil(frame: Frame, x: u8) -> Result<Answer, Refusal>
    ensures { (p : Program) (m : Store) → numbered result ≡ answered frame (trial p m frame.slots (Nil x)) }
{
    let [value] = frame.references([x])?;
    Ok(told(frame, value == Slot::Null))
}

pub(crate) fn same(frame: Frame, x: u8, y: u8) -> Result<Answer, Refusal>
    ensures { (p : Program) (m : Store) → numbered result ≡ answered frame (trial p m frame.slots (Same x y)) }
{
    let [a, b] = frame.references([x, y])?;
    Ok(told(frame, a.word() == b.word()))
}

// The words of two numbers.
fn numbers(frame: Frame, x: u8, y: u8) -> Result<[u64; 2], Refusal>
    ensures { result ≡ (if given frame.slots x && given frame.slots y then (if holds_number (at frame.slots x) && holds_number (at frame.slots y) then Ok (word_of (at frame.slots x) ∷ word_of (at frame.slots y) ∷ []) else Err Sort) else Err NoOperand) }
{
    let [a, b] = frame.operands([x, y])?;
    require(a.holds_number() && b.holds_number(), Refusal::Sort)?;
    Ok([a.word(), b.word()])
}

pub(crate) fn equal(frame: Frame, x: u8, y: u8) -> Result<Answer, Refusal>
    ensures { (p : Program) (m : Store) → numbered result ≡ answered frame (trial p m frame.slots (Equal x y)) }
{
    let [a, b] = numbers(frame, x, y)?;
    Ok(told(frame, a == b))
}

pub(crate) fn less(frame: Frame, x: u8, y: u8) -> Result<Answer, Refusal>
    ensures { (p : Program) (m : Store) → numbered result ≡ answered frame (trial p m frame.slots (Less x y)) }
{
    let [a, b] = numbers(frame, x, y)?;
    Ok(told(frame, a < b))
}

// Exchanges a cell that is there, and says whether it did; a yes goes on with the frame. 51 where a word is none.
fn settle<M: Memory>(
    memory: &mut M,
    frame: Frame,
    object: u32,
    f: u8,
    expected: u32,
    new: u32,
    mark: bool,
) -> Result<Answer, Refusal>
    requires { has_cell (M.Memory.model memory.old) object f ≡ true }
    ensures value { numbered result ≡ settled (M.Memory.model memory.old) frame object f expected new }
    ensures after { M.Memory.model memory.new ≡ settled_store (M.Memory.model memory.old) object f expected new mark }
{
    let yes = memory
        .exchange(object as usize, f as usize, expected, new, mark)
        .map_err(|_| Refusal::Absent)?;
    Ok(told(frame, yes))
}

// The target of a reference that a test asks about; none where it is null.
fn aim<M: Memory>(table: &Table, memory: &M, value: Slot, f: u8) -> Result<Option<Target>, Refusal>
    ensures value { numbered result ≡ (if refers (program_of table.now) (M.Memory.model memory.now) value f then targeted (program_of table.now) (M.Memory.model memory.now) value f else Err 72) }
    ensures there { InMemory (M.Memory.model memory.now) f (numbered result) }
{
    require(refers(table, memory, value, f), Refusal::Sort)?;
    resolve(table, memory, value, f)
}

pub(crate) fn stable<M: Memory>(
    table: &Table,
    memory: &M,
    frame: Frame,
    x: u8,
    f: u8,
) -> Result<Answer, Refusal>
    ensures { numbered result ≡ answered frame (trial (program_of table.now) (M.Memory.model memory.now) frame.slots (Stable x f)) }
{
    let [value] = frame.references([x])?;
    let Some(target) = aim(table, memory, value, f)? else {
        return Ok(Answer::Halts);
    };
    Ok(told(frame, target.cell.mark))
}

// Marks x.f with y in it, where it is unmarked.
pub(crate) fn attempt<M: Memory>(
    table: &Table,
    memory: &mut M,
    frame: Frame,
    x: u8,
    f: u8,
    y: u8,
) -> Result<Answer, Refusal>
    ensures value { numbered result ≡ answered frame (trial (program_of table.now) (M.Memory.model memory.old) frame.slots (Try x f y)) }
    ensures after { M.Memory.model memory.new ≡ answered_store (M.Memory.model memory.old) (trial (program_of table.now) (M.Memory.model memory.old) frame.slots (Try x f y)) }
{
    let [a, b] = frame.references([x, y])?;
    let Some(target) = aim(table, memory, a, f)? else {
        return Ok(Answer::Halts);
    };
    let new = b.cell_word()?;
    let spent = frame.with(y, b.left(target.field.ty));
    settle(memory, spent, target.object, f, target.cell.word, new, true)
}

// Marks x.f where it is unmarked and equals y.
pub(crate) fn fix<M: Memory>(
    table: &Table,
    memory: &mut M,
    frame: Frame,
    x: u8,
    f: u8,
    y: u8,
) -> Result<Answer, Refusal>
    ensures value { numbered result ≡ answered frame (trial (program_of table.now) (M.Memory.model memory.old) frame.slots (Fix x f y)) }
    ensures after { M.Memory.model memory.new ≡ answered_store (M.Memory.model memory.old) (trial (program_of table.now) (M.Memory.model memory.old) frame.slots (Fix x f y)) }
{
    let [a, b] = frame.references([x, y])?;
    let Some(target) = aim(table, memory, a, f)? else {
        return Ok(Answer::Halts);
    };
    let word = b.cell_word()?;
    settle(memory, frame, target.object, f, word, word, true)
}

// Puts w into x.f where it is unmarked and holds y.
pub(crate) fn swap<M: Memory>(
    table: &Table,
    memory: &mut M,
    frame: Frame,
    x: u8,
    f: u8,
    y: u8,
    w: u8,
) -> Result<Answer, Refusal>
    ensures value { numbered result ≡ answered frame (trial (program_of table.now) (M.Memory.model memory.old) frame.slots (Swap x f y w)) }
    ensures after { M.Memory.model memory.new ≡ answered_store (M.Memory.model memory.old) (trial (program_of table.now) (M.Memory.model memory.old) frame.slots (Swap x f y w)) }
{
    let [a, b, d] = frame.references([x, y, w])?;
    let Some(target) = aim(table, memory, a, f)? else {
        return Ok(Answer::Halts);
    };
    let old = b.cell_word()?;
    let new = d.cell_word()?;
    let spent = frame.with(w, d.left(target.field.ty));
    settle(memory, spent, target.object, f, old, new, false)
}

// Puts y into x.f where it is unmarked and holds the word of y.g.
pub(crate) fn link<M: Memory>(
    table: &Table,
    memory: &mut M,
    frame: Frame,
    x: u8,
    f: u8,
    y: u8,
    g: u8,
) -> Result<Answer, Refusal>
    ensures value { numbered result ≡ answered frame (trial (program_of table.now) (M.Memory.model memory.old) frame.slots (Link x f y g)) }
    ensures after { M.Memory.model memory.new ≡ answered_store (M.Memory.model memory.old) (trial (program_of table.now) (M.Memory.model memory.old) frame.slots (Link x f y g)) }
{
    let Some(pair) = targets(table, memory, frame, x, f, y, g)? else {
        return Ok(Answer::Halts);
    };
    let b = frame.at(y);
    let new = b.cell_word()?;
    let spent = frame.with(y, b.left(pair.from.field.ty));
    settle(
        memory,
        spent,
        pair.from.object,
        f,
        pair.to.cell.word,
        new,
        false,
    )
}

// Puts the word of y.g into x.f where it is unmarked and holds y.
pub(crate) fn unlink<M: Memory>(
    table: &Table,
    memory: &mut M,
    frame: Frame,
    x: u8,
    f: u8,
    y: u8,
    g: u8,
) -> Result<Answer, Refusal>
    ensures value { numbered result ≡ answered frame (trial (program_of table.now) (M.Memory.model memory.old) frame.slots (Unlink x f y g)) }
    ensures after { M.Memory.model memory.new ≡ answered_store (M.Memory.model memory.old) (trial (program_of table.now) (M.Memory.model memory.old) frame.slots (Unlink x f y g)) }
{
    let Some(pair) = targets(table, memory, frame, x, f, y, g)? else {
        return Ok(Answer::Halts);
    };
    let old = frame.at(y).cell_word()?;
    settle(
        memory,
        frame,
        pair.from.object,
        f,
        old,
        pair.to.cell.word,
        false,
    )
}

// The targets of a test on the fields x.f and y.g; none where x or y is null.
fn targets<M: Memory>(
    table: &Table,
    memory: &M,
    frame: Frame,
    x: u8,
    f: u8,
    y: u8,
    g: u8,
) -> Result<Option<Pair>, Refusal>
    ensures value { numbered result ≡ asked (fields_ask (program_of table.now) (M.Memory.model memory.now) frame.slots x f y g) (is_null (at frame.slots x) || is_null (at frame.slots y)) (pair_at (program_of table.now) (M.Memory.model memory.now) (at frame.slots x) f (at frame.slots y) g) }
    ensures there { PairInMemory (M.Memory.model memory.now) f (numbered result) }
{
    let [a, b] = frame.references([x, y])?;
    require(
        refers(table, memory, a, f) && refers(table, memory, b, g),
        Refusal::Sort,
    )?;
    resolve_both(table, memory, a, f, b, g)
}
