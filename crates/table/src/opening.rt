// Opening a table: the refusals of its bytes, in the order of their numbers.
ghost use Rattle.std.specs.Prelude.{◌≡◌, ℕ, ◌+◌, ◌^◌, ◌<◌, ◌≤◌};
ghost use Rattle.table.specs.Faults.{Passes, Answers, each};
ghost use Rattle.table.specs.Program.{both, header, section_fits, section_passes, sections, struct_fits, mode_passes, struct_passes, structs, function_fits, function_passes, functions, field_type_passes, field_types, type_passes, param_place, function_types, struct_count, field_count, function_count, param_count, entry, program};
ghost use Rattle.table.specs.Reading.{bytes_of, opened};

use super::fault::{Fault, Place, Refusal, require};
use super::keeping::{field_keeps_rules, keeps_rules};
use super::view::Table;

// A view of a table's bytes, or the first refusal.
pub fn open<'t>(bytes: &'t [u8]) -> Result<Table<'t>, Fault>
    ensures { opened result ≡ program bytes.now }
{
    let table = Table::over(bytes);
    check_header(bytes)?;
    check_sections(&table)?;
    check_structs(&table)?;
    check_functions(&table)?;
    check_field_types(&table)?;
    check_function_types(&table)?;
    check_entry(&table)?;
    Ok(table)
}

// The first refusal at the places 0 to n - 1. No `try_for_each`: what it says of its calls did not prove this.
fn each<F: Fn(u8) -> Result<(), Fault>>(n: u8, passes: F) -> Result<(), Fault>
    requires { F.IsAlwaysCallable passes }
    ensures { (at : ℕ → Passes) → Answers (F.post passes) n at → result ≡ each n at }
{
    for i in 0..n {
        passes(i)?;
    }
    Ok(())
}

// 1 to 3: the length, the edition, the counts and byte 3.
fn check_header(bytes: &[u8]) -> Result<(), Fault>
    ensures { result ≡ header bytes.now }
{
    let [edition, structs, functions, zero, rest @ ..] = bytes else {
        return Err(Refusal::Length.at(Place::Byte(0)));
    };
    require(rest.len() <= 65_531, Refusal::Length.at(Place::Byte(0)))?;
    require(*edition == 1, Refusal::Edition.at(Place::Byte(0)))?;
    require(
        (1..=16).contains(structs),
        Refusal::Counts.at(Place::Byte(1)),
    )?;
    require(
        (1..=32).contains(functions),
        Refusal::Counts.at(Place::Byte(2)),
    )?;
    require(*zero == 0, Refusal::Counts.at(Place::Byte(3)))
}

// 4: the pairs of offset and length.
fn check_sections(table: &Table) -> Result<(), Fault>
    ensures { result ≡ sections (bytes_of table.now) }
{
    let last = table.function_count();
    let end = 4 + 4 * (usize::from(last) + 1);
    require(end <= table.len(), Refusal::Sections.at(Place::Byte(4)))?;
    each(last, |i| check_section(table, i))?;
    check_section(table, last)
}

// Into both of its calls, and the refusal made where it is needed: else a table of many small functions took a quarter more time to open.
#[inline(always)]
fn check_section(table: &Table, i: u8) -> Result<(), Fault>
    ensures { result ≡ section_passes (bytes_of table.now) i }
{
    if section_fits(table, i) {
        return Ok(());
    }
    Err(Refusal::Sections.at(Place::Byte(4 + 4 * usize::from(i))))
}

// A section begins where what comes before it ends, and ends within the table, the last with it. Inlined with `check_section`.
#[inline(always)]
fn section_fits(table: &Table, i: u8) -> bool
    ensures { result ≡ section_fits (bytes_of table.now) i }
{
    let begin = if i == 0 {
        4 + 4 * (usize::from(table.function_count()) + 1)
    } else {
        table.section_end(u16::from(i - 1))
    };
    let section = u16::from(i);
    let end = table.section_end(section);
    if usize::from(table.section_place(section)) != begin {
        false
    } else if i == table.function_count() {
        end == table.len()
    } else {
        end <= table.len()
    }
}

// 5: the structs, and then a byte left over.
fn check_structs(table: &Table) -> Result<(), Fault>
    ensures { result ≡ structs (bytes_of table.now) }
{
    each(table.struct_count(), |s| check_struct(table, s))?;
    let end = table.struct_place(table.struct_count());
    require(
        end == table.section_end(0),
        Refusal::Structs.at(Place::Byte(end)),
    )
}

fn check_struct(table: &Table, s: u8) -> Result<(), Fault>
    ensures { result ≡ struct_passes (bytes_of table.now) s }
{
    let place = Place::Byte(table.struct_place(s));
    require(struct_fits(table, s), Refusal::Structs.at(place))?;
    each(table.field_count(s), |f| {
        let place = table.field_place(s, f);
        require(
            table.byte(place) <= 3,
            Refusal::Structs.at(Place::Byte(place)),
        )
    })
}

// A struct has at most 8 fields and is not cut short.
fn struct_fits(table: &Table, s: u8) -> bool
    ensures { result ≡ struct_fits (bytes_of table.now) s }
{
    let end = table.section_end(0);
    let fields = table.field_count(s);
    table.struct_place(s) < end && fields <= 8 && table.field_place(s, fields) <= end
}

// 6: the functions.
fn check_functions(table: &Table) -> Result<(), Fault>
    ensures { result ≡ functions (bytes_of table.now) }
{
    each(table.function_count(), |n| {
        let place = Place::Byte(usize::from(table.function_place(n)));
        require(function_fits(table, n), Refusal::Functions.at(place))
    })
}

// A function has at most 4 parameters, and 1 to 255 records that fill its section.
fn function_fits(table: &Table, n: u8) -> bool
    ensures { result ≡ function_fits (bytes_of table.now) n }
{
    let records = table.record_count(n);
    table.param_count(n) <= 4 && table.record_bytes(n) % 12 == 0 && (1..=255).contains(&records)
}

// 7: the types of the fields.
fn check_field_types(table: &Table) -> Result<(), Fault>
    ensures { result ≡ field_types (bytes_of table.now) }
{
    each(table.struct_count(), |s| {
        each(table.field_count(s), |f| check_field_type(table, s, f))
    })
}

fn check_field_type(table: &Table, s: u8, f: u8) -> Result<(), Fault>
    ensures { result ≡ field_type_passes (bytes_of table.now) s f }
{
    let place = table.field_place(s, f) + 1;
    let keeps = table.byte(place) <= 3 && field_keeps_rules(table, table.field_at(s, f));
    require(keeps, Refusal::Types.at(Place::Byte(place)))
}

// And then those of the functions.
fn check_function_types(table: &Table) -> Result<(), Fault>
    ensures { result ≡ function_types (bytes_of table.now) }
{
    each(
        table.function_count(),
        |n| check_types_of_function(table, n),
    )
}

// The parameters, and the return type behind them.
fn check_types_of_function(table: &Table, n: u8) -> Result<(), Fault>
    ensures { result ≡ each (param_count (bytes_of table.now) n + 1) (λ i. type_passes (bytes_of table.now) (param_place (bytes_of table.now) n i)) }
{
    each(
        table.param_count(n),
        |i| check_type(table, table.param_place(n, i)),
    )?;
    check_type(table, table.result_place(n))
}

fn check_type(table: &Table, place: usize) -> Result<(), Fault>
    requires near { place < 2 ^ 32 }
    ensures { result ≡ type_passes (bytes_of table.now) place }
{
    let keeps = table.byte(place) <= 3 && keeps_rules(table, table.type_at(place));
    require(keeps, Refusal::Types.at(Place::Byte(place)))
}

// 8: function 0 has no parameters.
fn check_entry(table: &Table) -> Result<(), Fault>
    ensures { result ≡ entry (bytes_of table.now) }
{
    let place = Place::Byte(usize::from(table.function_place(0)));
    require(table.param_count(0) == 0, Refusal::Entry.at(place))
}
