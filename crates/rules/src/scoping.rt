// The scope before a record: the records before it are read in turn, with the open blocks in a list.
ghost use Rattle.std.specs.Prelude.{◌≡◌, ◌<◌, ◌≤◌, ◌∷◌, [], length, None, Ok};
ghost use Rattle.table.specs.Reading.{program_of};
ghost use Rattle.rules.specs.Rules.{callee, yes_types};
ghost use Rattle.rules.specs.Scopes.{state, Yes, close, end_of, before};
ghost use Rattle.rules.specs.Seen.{program_in, function_in};
ghost use Rattle.rules.specs.Parts.{test_refused_in};
ghost use Rattle.rules.specs.InScope.{in_scope, SameList};
ghost use Rattle.rules.specs.Before.{read_before, counted, scoped, Fronts};
ghost use Rattle.rules.specs.Stacks.{blocks_of, state_of, stack, Deep, Passed};

use super::body::Body;
use super::checking::judge;
use super::in_scope::InScope;
use super::nesting::{Blocks, Open};
use list::Bounded;
use table::fault::{Fault, Place, Refusal, require};
use table::records::{Record, Test};
use table::types::Ty;
use table::view::Table;

// Body, types and blocks stay three parameters here: a struct of the three would be lent on at each call, and read no plainer.

// Opens an accepted test's yes block, under the type that the test changes.
fn open_yes(
    body: Body<'_>,
    types: &mut InScope<'_, '_>,
    blocks: &mut Blocks<'_, '_>,
    end: usize,
    test: Test,
    no: u16,
)
    requires less { length (stack blocks.old) < 7 }
    requires allowed { test_refused_in body (in_scope types.old) test ≡ None }
    ensures state { state_of (in_scope types.new) (stack blocks.new) ≡ state (yes_types (program_in body.entry) (function_in body.entry) (in_scope types.old) test) (Yes no end (in_scope types.old) ∷ blocks_of (in_scope types.old) (stack blocks.old)) }
    ensures deep { Deep (length (in_scope types.old)) (stack blocks.old) → Deep (length (in_scope types.new)) (stack blocks.new) }
    ensures same { SameList types.old types.new }
{
    let saved = types.change(body, test);
    let _ = blocks.list.push(Open {
        end,
        count: Some(no),
        saved,
    });
}

// Ends the blocks that end before a record, and opens the no block that begins there.
fn end_blocks(types: &mut InScope<'_, '_>, blocks: &mut Blocks<'_, '_>, place: usize)
    requires place { place ≤ 256 }
    requires deep { Deep (length (in_scope types.old)) (stack blocks.old) }
    ensures state { state_of (in_scope types.new) (stack blocks.new) ≡ close place (in_scope types.old) (blocks_of (in_scope types.old) (stack blocks.old)) }
    ensures deep { Deep (length (in_scope types.new)) (stack blocks.new) }
    ensures same { SameList types.old types.new }
{
    let Some(block) = blocks.list.last() else {
        return;
    };
    if block.end != place {
        return;
    }
    let _ = blocks.list.pop();
    types.bring_back(block.saved);
    let count = block.following();
    if count == 0 {
        end_blocks(types, blocks, place);
    } else {
        let _ = blocks.list.push(Open {
            end: place + count as usize,
            count: None,
            ..block
        });
    }
}

// Reads a record, unless it is refused.
fn pass(
    body: Body<'_>,
    types: &mut InScope<'_, '_>,
    blocks: &mut Blocks<'_, '_>,
    place: usize,
) -> Result<(), Fault>
    requires place { place ≤ 255 }
    requires deep { Deep (length (in_scope types.old)) (stack blocks.old) }
    requires before_end { place < end_of (length (function_in body).records) (blocks_of (in_scope types.old) (stack blocks.old)) }
    ensures value { Passed body.entry place (state_of (in_scope types.old) (stack blocks.old)) (in_scope types.new) (stack blocks.new) result }
    ensures same { SameList types.old types.new }
{
    let part = blocks.innermost(body, place);
    let said = judge(body, types, part)?;
    if let Record::Ask { test, yes, no } = said {
        let end = place + 1 + yes as usize;
        open_yes(body, types, blocks, end, test, no);
    } else {
        types.bind(body, said);
        end_blocks(types, blocks, place + 1);
    }
    Ok(())
}

// Reads the records before one, and leaves the types in scope there.
fn read_up_to(
    body: Body<'_>,
    types: &mut InScope<'_, '_>,
    blocks: &mut Blocks<'_, '_>,
    index: usize,
) -> Result<(), Fault>
    requires start { in_scope types.old ≡ (function_in body).params }
    requires outside { stack blocks.old ≡ [] }
    requires there { index < length (function_in body).records }
    requires few { index ≤ 255 }
    ensures value { result ≡ read_before (program_in body.entry) body.entry.function index }
    ensures types { result ≡ Ok tt → in_scope types.new ≡ (before (program_in body.entry) (function_in body.entry) index).types }
    ensures same { SameList types.old types.new }
{
    // By place: a table lends its bytes, and no slice of records.
    for place in 0..index {
        pass(body, types, blocks, place)?;
    }
    Ok(())
}

// Table and scratch are parameters here as in the public `scope_at`, which lends them on: the rules of the project name them there.

// The scope before a record, in scratch for at least 16 types, whose front then holds it. Refused where there is no such record, and where a record
// before it is.
pub(crate) fn scope_in(
    table: &Table<'_>,
    function: usize,
    index: usize,
    scratch: &mut [Ty],
) -> Result<usize, Fault>
    requires room { 16 ≤ length scratch.old }
    ensures value { result ≡ counted (program_of table.now) function index }
    ensures types { Fronts (before (program_of table.now) (callee (program_of table.now) function) index).types scratch.new result }
{
    let body = Body {
        table: *table,
        function,
    };
    let place = Place::Record { function, index };
    require(index < body.records(), Refusal::Record.at(place))?;
    let mut list = Bounded::new(scratch);
    let mut types = InScope { list: &mut list };
    types.enter(body);
    let mut space = [Open::default(); 7];
    let mut open = Bounded::new(&mut space);
    let mut blocks = Blocks { list: &mut open };
    read_up_to(body, &mut types, &mut blocks, index)?;
    Ok(types.list.len())
}

// How many types are in scope before a record; the scratch, for 128 types, then holds them in front. Refused where there is no such record, and
// where a record before it is.
pub fn scope_at(
    table: &Table<'_>,
    function: usize,
    index: usize,
    scratch: &mut [Ty],
) -> Result<usize, Fault>
    ensures value { result ≡ scoped (length scratch.old) (program_of table.now) function index }
    ensures types { Fronts (before (program_of table.now) (callee (program_of table.now) function) index).types scratch.new result }
{
    require(scratch.len() >= 128, Refusal::Scratch.at(Place::Nothing))?;
    scope_in(table, function, index, scratch)
}
