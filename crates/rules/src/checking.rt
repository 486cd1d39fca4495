// The check of a body: block by block, and a test by its blocks.
ghost use Rattle.std.specs.Prelude.{◌≡◌, ℕ, ◌+◌, ◌-◌, ◌<◌, ◌≤◌, length, take, None};
ghost use Rattle.table.specs.Reading.{program_of};
ghost use Rattle.rules.specs.Rules.{yes_types};
ghost use Rattle.rules.specs.Scopes.{read, start};
ghost use Rattle.rules.specs.Seen.{program_in, function_in};
ghost use Rattle.rules.specs.InScope.{in_scope, back};
ghost use Rattle.rules.specs.Checked.{checked, Opens, Says};
ghost use Rattle.rules.specs.Parts.{scanned, tested, judged_at, said_by, test_refused_in, Stands};

use super::body::Body;
use super::in_scope::{InScope, Saved};
use super::parts::{Part, Sort};
use super::scope::Scope;
use list::Bounded;
use table::fault::{Fault, Place, Refusal, require};
use table::records::{Record, Test};
use table::types::Ty;
use table::view::Table;

// Holds the types in scope while a yes block is checked, with what its end brings back.
struct Guard<'s, 'l, 'a> {
    types: &'s mut InScope<'l, 'a>,
    saved: Saved,
}

impl Drop for Guard<'_, '_, '_> {
    fn drop(self)
        ensures { in_scope self.exit.0.now ≡ back (in_scope self.entry.types.now) self.entry.saved }
    {
        let Guard { types, saved } = self;
        types.bring_back(saved);
    }
}

// The first record of a part, unless it is refused: 20, then 21 to 27 by its rule, then 28 and 29 by its place.
pub(crate) fn judge<'t>(
    body: Body<'t>,
    types: &InScope<'_, '_>,
    part: Part,
) -> Result<Record<'t>, Fault>
    requires begun { part.place < part.end }
    requires floor { part.floor ≤ length (in_scope types.now) }
    ensures { said_by result ≡ judged_at body.entry (in_scope types.now) part }
{
    let place = Place::Record {
        function: body.function,
        index: part.place,
    };
    let said = body.record_at(part.place).ok_or(Refusal::Record.at(place))?;
    let scope = Scope {
        body,
        types: types.list.all(),
    };
    scope.allow(said).map_err(|refusal| refusal.at(place))?;
    require(part.fits(said), Refusal::Block.at(place))?;
    // Never so: a block's bindings lie above what was in scope where it began.
    require(part.floor <= types.list.len(), Refusal::Leak.at(place))?;
    Ok(said)
}

// Body, types and part stay three parameters: `stands` ties them, but types and part change from call to call, so no value can carry it.

// Checks a block's records in turn. What is in scope before them stays in front of what they bring into scope.
#[cycle(check_block_check_test_check_yes)]
fn check_block(body: Body<'_>, types: &mut InScope<'_, '_>, part: Part) -> Result<(), Fault>
    requires stands { Stands body (in_scope types.old) part }
    ensures value { (f : ℕ) → part.end - part.place < f → result ≡ scanned f body.entry (in_scope types.old) part }
    ensures kept { take (length (in_scope types.old)) (in_scope types.new) ≡ in_scope types.old }
{
    if part.place >= part.end {
        return Ok(());
    }
    let said = judge(body, types, part)?;
    // A `match` of two arms is plainest: a test carries the counts of its blocks, and no other record has blocks.
    match said {
        Record::Ask { test, yes, no } => check_test(body, types, part, test, yes, no),
        _ => {
            types.bind(body, said);
            let rest = Part {
                place: part.place + 1,
                ..part
            };
            check_block(body, types, rest)
        }
    }
}

// Checks an accepted test's yes block, its no block, and what comes behind them.
#[cycle(check_block_check_test_check_yes)]
fn check_test(
    body: Body<'_>,
    types: &mut InScope<'_, '_>,
    part: Part,
    test: Test,
    yes: u16,
    no: u16,
) -> Result<(), Fault>
    requires stands { Stands body (in_scope types.old) part }
    requires inside { part.place + 1 + yes + no ≤ part.end }
    requires levels { 1 ≤ part.levels }
    requires allowed { test_refused_in body (in_scope types.old) test ≡ None }
    ensures value { (f : ℕ) → part.end - (part.place + 1) < f → result ≡ tested f body.entry (in_scope types.old) part test yes no }
    ensures kept { take (length (in_scope types.old)) (in_scope types.new) ≡ in_scope types.old }
{
    let depth = types.list.len();
    let in_yes = Part {
        place: part.place + 1,
        end: part.place + 1 + yes as usize,
        levels: part.levels - 1,
        sort: Sort::InYes(no),
        floor: depth,
    };
    let in_no = Part {
        place: in_yes.end,
        end: in_yes.end + no as usize,
        sort: Sort::InNo,
        ..in_yes
    };
    let rest = Part {
        place: in_no.end,
        ..part
    };
    check_yes(body, types, in_yes, test)?;
    let no_block = check_block(body, types, in_no);
    types.list.truncate(depth);
    no_block?;
    check_block(body, types, rest)
}

// Checks a yes block under the type that its test changes; the guard brings that type back on every way out.
#[cycle(check_block_check_test_check_yes)]
fn check_yes(
    body: Body<'_>,
    types: &mut InScope<'_, '_>,
    part: Part,
    test: Test,
) -> Result<(), Fault>
    requires stands { Stands body (in_scope types.old) part }
    requires allowed { test_refused_in body (in_scope types.old) test ≡ None }
    ensures value { (f : ℕ) → part.end - part.place < f → result ≡ scanned f body.entry (yes_types (program_in body.entry) (function_in body.entry) (in_scope types.old) test) part }
    ensures same { in_scope types.new ≡ in_scope types.old }
{
    let saved = types.change(body, test);
    let guard = Guard { types, saved };
    check_block(body, guard.types, part)
}

// Checks the body of a function.
fn check_body(body: Body<'_>, scratch: &mut [Ty]) -> Result<(), Fault>
    requires room { 16 ≤ length scratch.old }
    ensures { result ≡ read (program_in body.entry) (function_in body.entry) body.entry.function 0 (start (program_in body.entry) (function_in body.entry)) (function_in body.entry).records }
{
    let mut list = Bounded::new(scratch);
    let mut types = InScope { list: &mut list };
    types.enter(body);
    check_block(body, &mut types, Part::whole(body))
}

// Checks all records of a table by the rules, in scratch for 128 types.
pub fn check(table: &Table<'_>, scratch: &mut [Ty]) -> Result<(), Fault>
    ensures value { result ≡ checked (length scratch.old) (program_of table.now) }
    ensures opened { Opens (program_of table.now) → Says (program_of table.now) (length scratch.old) result }
{
    require(scratch.len() >= 128, Refusal::Scratch.at(Place::Nothing))?;
    // By number: a table lends its bytes, and no slice of functions.
    for function in 0..table.functions() {
        let body = Body {
            table: *table,
            function,
        };
        check_body(body, scratch)?;
    }
    Ok(())
}
