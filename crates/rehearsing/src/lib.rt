// The result of rehearsing a table, as a value whose `Display` is what is printed.
#![tactic(auto)]

ghost use Rattle.std.specs.Prelude.{◌≡◌, ◌≤◌, length};
ghost use Rattle.list.specs.Held.{held};
ghost use Rattle.rehearsing.specs.Reports.{numbers_of, run_over, reported, reported_on, meant, ran_by};

use list::{Bounded, Front};
use memory::keeping::Memory;
use memory::object::Object;
use memory::object_table::ObjectTable;
use rehearsal::{Rehearsal, Report};
use rules::check;
use runner::rounds;
use stepping::start;
use table::types::Ty;
use table::{Fault, open};
use tally::Tally;

pub mod rehearsal;
pub mod shown;
pub mod tally;

// How many steps a rehearsal may take.
const STEPS: usize = 10_000;

// The numbers of a list, copied to an array of their own: no contract says what the lent one ends as.
fn copied(out: &Bounded<'_, u32>, tally: Tally) -> Rehearsal
    ensures numbers { length (held out.now) ≤ 256 → numbers_of result ≡ held out.now }
    ensures tally { result.tally ≡ tally }
{
    let mut items = [0; 256];
    let all = out.all();
    let len = all.len().min(256);
    items[..len].copy_from_slice(&all[..len]);
    Rehearsal {
        numbers: Front { items, len },
        tally,
    }
}

// Runs a table that the rules accept, over a memory, for at most `limit` steps; refused by the bytes, by the rules, or where the memory has objects.
#[tactic(auto, unfolding(crate::specs::Reports::run_over))]
fn run_whole<M: Memory>(bytes: &[u8], memory: &mut M, limit: usize) -> Result<Rehearsal, Fault>
    ensures { ran_by result ≡ run_over limit (M.Memory.model memory.old) bytes.now }
{
    let table = open(bytes)?;
    let mut scratch = [Ty::NUMBER; 128];
    check(&table, &mut scratch)?;
    let mut machine = start(memory)?;
    let mut numbers = [0; 256];
    let mut out = Bounded::new(&mut numbers);
    let steps = rounds(&table, &mut machine, memory, &mut out, limit);
    Ok(copied(&out, Tally::of(&machine, steps)))
}

// Rehearses a table of any length over a memory of the caller's.
pub fn rehearse_over<M: Memory>(bytes: &[u8], memory: &mut M) -> Report
    ensures { meant result ≡ reported_on (M.Memory.model memory.old) bytes.now }
{
    Report {
        outcome: run_whole(bytes, memory, STEPS),
    }
}

// Rehearses a table of any length over a memory of 64 objects.
pub fn rehearse(bytes: &[u8]) -> Report
    ensures { meant result ≡ reported bytes.now }
{
    let mut objects = [Object::BLANK; 64];
    match ObjectTable::new(&mut objects) {
        Ok(mut memory) => rehearse_over(bytes, &mut memory),
        Err(fault) => Report {
            outcome: Err(fault),
        },
    }
}
