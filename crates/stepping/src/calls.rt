// Calls, forks, `again` and returns: what goes from frame to frame.
ghost use Rattle.std.specs.Prelude.{◌≡◌, ℕ, ◌≤◌, true, ⊤, [], ◌∷◌, MatchOption, length, take, nat_lt, slice_index_or};
ghost use Rattle.table.specs.Faults.{numbered};
ghost use Rattle.table.specs.Reading.{program_of};
ghost use Rattle.rules.specs.Rules.{callee, number};
ghost use Rattle.std.specs.List.{list_all, enumerate_from};
ghost use Rattle.std.specs.Option.{option_map};
ghost use Rattle.machine.specs.Values.{given};
ghost use Rattle.table.specs.Records.{Again};
ghost use Rattle.memory.specs.Model.{Store};
ghost use Rattle.machine.specs.World.{op_at};
ghost use Rattle.machine.specs.Ways.{call_of};
ghost use Rattle.machine.specs.Alone.{alone, done_of};
ghost use Rattle.stepping.specs.Calling.{suit_at, granted, handed, handing, forking, returning};

use super::standing::op_at;
use machine::frames::Done;
use machine::standing::Standing;
use machine::threads::{FRAMES, Frame, THREADS};
use table::Table;
use table::fault::{Refusal, require};
use table::records::Record;
use table::types::Ty;

// The frame that hands its arguments over, and the one that begins with them.
#[derive(Clone, Copy, Drop)]
pub struct Passed {
    pub caller: Frame,
    pub callee: Frame,
}

// Table, frame and bytes stay parameters: a frame is copied, and the others are lent for one call.

// The operands that are handed over: one for each parameter.
fn operands<'a>(table: &Table, n: usize, args: &'a [u8]) -> &'a [u8]
    ensures value { result.now ≡ take (length (callee (program_of table.now) n).params) args.now }
    ensures few { length result.now ≤ 4 }
{
    &args[..args.len().min(table.params(n))]
}

// Whether each operand is of its parameter's sort.
fn all_suit(table: &Table, frame: Frame, n: usize, operands: &[u8]) -> bool
    ensures { result ≡ list_all (suit_at frame.slots (callee (program_of table.now) n).params) (enumerate_from 0 operands.now) }
{
    operands
        .iter()
        .enumerate()
        .all(|(i, x)| frame.at(*x).suits(param(table, n, i)))
}

// The type of a function's parameter.
fn param(table: &Table, n: usize, i: usize) -> Ty
    ensures { result ≡ slice_index_or (callee (program_of table.now) n).params i number }
{
    table.param(n, i).unwrap_or(Ty::NUMBER)
}

// The type that a function returns.
fn returned(table: &Table, n: usize) -> Ty
    ensures { result ≡ (callee (program_of table.now) n).result }
{
    table.result(n).unwrap_or(Ty::NUMBER)
}

// Hands the arguments over: what goes to an owned or pristine parameter leaves its slot null.
fn pass(table: &Table, frame: Frame, n: u8, operands: &[u8]) -> Passed
    requires each { length operands.now ≤ length (callee (program_of table.now) n).params }
    requires few { length operands.now ≤ 4 }
    ensures { result ≡ handed (program_of table.now) frame n operands.now }
{
    let mut caller = frame;
    let mut callee = Frame {
        function: n,
        ..Frame::FIRST
    };
    for (i, x) in operands.iter().enumerate() {
        let ty = param(table, n as usize, i);
        callee = callee.with(i as u8, frame.at(*x));
        caller = caller.with(*x, caller.at(*x).left(ty));
    }
    Passed { caller, callee }
}

// A frame's arguments go to a function: 71 and 72 are asked of them.
fn hand_over(
    table: &Table,
    frame: Frame,
    slotted: bool,
    n: u8,
    args: &[u8],
) -> Result<Passed, Refusal>
    ensures { numbered result ≡ granted (handing (program_of table.now) frame slotted n args.now []) (handed (program_of table.now) frame n args.now) }
{
    let handed = operands(table, n as usize, args);
    require(slotted && frame.gives_all(handed), Refusal::NoOperand)?;
    require(all_suit(table, frame, n as usize, handed), Refusal::Sort)?;
    Ok(pass(table, frame, n, handed))
}

// The calling frame stays at its call; 66 where the thread has no room for another.
pub(crate) fn call(
    table: &Table,
    frame: Frame,
    depth: usize,
    z: u8,
    n: u8,
    args: &[u8],
) -> Result<Passed, Refusal>
    ensures { numbered result ≡ granted (handing (program_of table.now) frame (nat_lt z 16) n args.now ((73, nat_lt n (length (program_of table.now).functions)) ∷ (66, nat_lt depth 8) ∷ [])) (handed (program_of table.now) frame n args.now) }
{
    let passed = hand_over(table, frame, z < 16, n, args)?;
    require((n as usize) < table.functions(), Refusal::NoPart)?;
    require(depth < FRAMES, Refusal::Frames)?;
    Ok(passed)
}

// The forking frame goes on; 67 where there is no room for another thread.
pub(crate) fn fork(
    table: &Table,
    at: Standing,
    threads: usize,
    n: u8,
    args: &[u8],
) -> Result<Passed, Refusal>
    ensures { numbered result ≡ granted (handing (program_of table.now) at true n args.now ((73, nat_lt n (length (program_of table.now).functions)) ∷ (67, nat_lt threads 8) ∷ [])) (forking (program_of table.now) at n args.now) }
{
    let mut passed = hand_over(table, at.frame(), true, n, args)?;
    require((n as usize) < table.functions(), Refusal::NoPart)?;
    require(threads < THREADS, Refusal::Threads)?;
    passed.caller.index = at.next();
    Ok(passed)
}

// The frame starts anew with its arguments.
pub(crate) fn again(table: &Table, frame: Frame, args: &[u8]) -> Result<Done, Refusal>
    ensures { (m : Store) (room : ℕ) → numbered result ≡ done_of (alone (program_of table.now) m frame room (Again args.now)) }
{
    let passed = hand_over(table, frame, true, frame.function, args)?;
    Ok(passed.callee.goes(0))
}

// The slot that a call binds, of a frame that waits at one.
fn call_slot(table: &Table, waiting: Frame) -> Option<(Standing, u8)>
    ensures value { option_map (λ q. q.1) result ≡ call_of (op_at (program_of table.now) waiting) }
    ensures same { MatchOption result ⊤ (λ q. q.0 ≡ waiting) }
{
    // Neither `?` nor one pattern for both: the check of borrows covers neither where a record is inside.
    let Some((at, said)) = op_at(table, waiting) else {
        return None;
    };
    // One op is asked for, none is run.
    match said {
        Record::Call { z, .. } => Some((at, z)),
        _ => None,
    }
}

// A result goes to the frame that waits for it, which goes on behind its call; without one the thread ends.
pub(crate) fn give_back(
    table: &Table,
    frame: Frame,
    waiting: Option<Frame>,
    x: u8,
) -> Result<Option<Frame>, Refusal>
    ensures { numbered result ≡ returning (program_of table.now) frame waiting x }
{
    let value = frame.at(x);
    let ty = returned(table, frame.function as usize);
    let Some(w) = waiting else {
        require(frame.gives(x), Refusal::NoOperand)?;
        require(value.suits(ty), Refusal::Sort)?;
        return Ok(None);
    };
    let (at, z) = call_slot(table, w).ok_or(Refusal::NoRecord)?;
    require(frame.gives(x) && z < 16, Refusal::NoOperand)?;
    require(value.suits(ty), Refusal::Sort)?;
    Ok(Some(at.bind(z, value).frame))
}
