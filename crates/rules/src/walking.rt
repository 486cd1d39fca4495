// The types in scope before a record of a table that the check accepts, found by passing over the blocks that do not hold it.
ghost use Rattle.std.specs.Prelude.{◌≡◌, ◌<◌, ◌≤◌, length, None, Ok};
ghost use Rattle.table.specs.Records.{meant_by};
ghost use Rattle.table.specs.Reading.{program_of};
ghost use Rattle.rules.specs.Rules.{record_at, callee};
ghost use Rattle.rules.specs.Scopes.{before, verdict};
ghost use Rattle.rules.specs.Blocks.{Tests};
ghost use Rattle.rules.specs.Seen.{program_in, function_in};
ghost use Rattle.rules.specs.Parts.{test_refused_in};
ghost use Rattle.rules.specs.InScope.{in_scope, SameList};
ghost use Rattle.rules.specs.Walk.{allowing, Way, Nearer, Leads, Gives};

use super::body::Body;
use super::in_scope::InScope;
use super::scope::Scope;
use list::Bounded;
use table::records::{Record, Test};
use table::types::Ty;
use table::view::Table;

// What a record says, unless its rule refuses it.
fn allowed<'t>(body: Body<'t>, types: &InScope<'_, '_>, place: usize) -> Option<Record<'t>>
    ensures { meant_by result ≡ allowing (program_in body.entry) (function_in body.entry) (in_scope types.now) (record_at (function_in body.entry) place) }
{
    // Not by `?`: the check of borrows does not cover it where a record is inside.
    let Some(said) = body.record_at(place) else {
        return None;
    };
    let scope = Scope {
        body,
        types: types.list.all(),
    };
    match scope.allow(said) {
        Ok(()) => Some(said),
        Err(_) => None,
    }
}

// Goes on behind an accepted test: into its yes block or its no block, or past both, towards the record at the index.
fn pass_test(
    body: Body<'_>,
    types: &mut InScope<'_, '_>,
    place: usize,
    index: usize,
    test: Test,
    yes: u16,
    no: u16,
) -> usize
    requires before { place < index }
    requires allowed { test_refused_in body (in_scope types.old) test ≡ None }
    ensures further { place < result }
    ensures within { result ≤ index }
    ensures leads { Way body.entry index place (in_scope types.old) → Tests (function_in body.entry) place test yes no → Way body.entry index result (in_scope types.new) }
    ensures same { SameList types.old types.new }
{
    let ahead = index - (place + 1);
    if ahead < yes as usize {
        let _ = types.change(body, test);
        place + 1
    } else if ahead < yes as usize + no as usize {
        place + 1 + yes as usize
    } else {
        place + 1 + yes as usize + no as usize
    }
}

// Goes on behind a record, towards the one at the index.
fn advance(body: Body<'_>, types: &mut InScope<'_, '_>, place: usize, index: usize) -> Option<usize>
    requires before { place < index }
    ensures nearer { Nearer place index result }
    ensures leads { Way body.entry index place (in_scope types.old) → Leads body.entry index (in_scope types.new) result }
    ensures same { SameList types.old types.new }
{
    let Some(said) = allowed(body, types, place) else {
        return None;
    };
    // A `match` of two arms, as in the check: a test carries the counts of its blocks.
    match said {
        Record::Ask { test, yes, no } => Some(pass_test(body, types, place, index, test, yes, no)),
        _ => {
            types.bind(body, said);
            Some(place + 1)
        }
    }
}

// How many types are in scope before a record of a table that the check accepts; the scratch holds them then. None where there is no such record, or
// scratch for fewer than 16.
pub fn scope_before(
    table: &Table<'_>,
    function: usize,
    index: usize,
    scratch: &mut [Ty],
) -> Option<usize>
    ensures missing { length (callee (program_of table.now) function).records ≤ index → result ≡ None }
    ensures small { length scratch.old < 16 → result ≡ None }
    ensures found { verdict (program_of table.now) ≡ Ok tt → index < length (callee (program_of table.now) function).records → 16 ≤ length scratch.old → Gives (before (program_of table.now) (callee (program_of table.now) function) index).types scratch.new result }
{
    let body = Body {
        table: *table,
        function,
    };
    if index >= body.records() {
        return None;
    }
    if scratch.len() < 16 {
        return None;
    }
    let mut list = Bounded::new(scratch);
    let mut types = InScope { list: &mut list };
    types.enter(body);
    let mut place = 0;
    // No range: how far a test leads on is known once it is read.
    while place < index {
        let Some(next) = advance(body, &mut types, place, index) else {
            return None;
        };
        place = next;
    }
    Some(types.list.len())
}
