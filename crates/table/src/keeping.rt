// When a type keeps its rules.
ghost use Rattle.std.specs.Prelude.{◌≡◌, ◌%◌, ◌<◌, ◌≤◌, ◌||◌, ◌==◌};
ghost use Rattle.table.specs.Types.{may_withhold, set_fits, keeps, field_keeps};
ghost use Rattle.table.specs.Program.{struct_at, struct_total};
ghost use Rattle.table.specs.Reading.{bytes_of, program_of};

use super::types::{Field, Kind, Mode, Ty};
use super::view::Table;

// Whether a type of this kind may withhold a field.
pub fn may_withhold(kind: Kind, field: Field) -> bool
    ensures { result ≡ may_withhold kind field }
{
    match kind {
        Kind::Number => false,
        Kind::Alias | Kind::Owned => field.mode != Mode::Var && field.ty.kind != Kind::Number,
        Kind::Pristine => matches!(field.mode, Mode::Val | Mode::Spec)
            && field.ty.kind == Kind::Owned,
    }
}

// Whether a set, of which a field is the first, leaves it or may withhold it.
fn first_fits(kind: Kind, field: Field, set: u8) -> bool
    ensures { result ≡ ((set % 2) == 0 || may_withhold kind field) }
{
    set % 2 == 0 || may_withhold(kind, field)
}

// Whether a set withholds only what it may of a struct's fields.
fn set_fits(table: &Table, kind: Kind, s: u8, set: u8) -> bool
    ensures { result ≡ set_fits kind (struct_at (bytes_of table.now) s) set }
{
    let mut rest = set;
    // No chain: what is left of the set behind the last field is asked as well.
    for f in 0..table.field_total(s) {
        if !first_fits(kind, table.field_at(s, f), rest) {
            return false;
        }
        rest /= 2;
    }
    rest == 0
}

pub fn keeps_rules(table: &Table, ty: Ty) -> bool
    ensures { result ≡ keeps (program_of table.now).structs ty }
{
    if ty.barred != 0 {
        return false;
    }
    if ty.kind == Kind::Number {
        return ty.strukt == 0 && ty.withheld == 0;
    }
    ty.strukt < table.struct_total() && set_fits(table, ty.kind, ty.strukt, ty.withheld)
}

// Whether a field keeps the rules of its type and of its mode.
pub fn field_keeps_rules(table: &Table, field: Field) -> bool
    ensures { result ≡ field_keeps (program_of table.now).structs field }
{
    let kind = field.ty.kind;
    keeps_rules(table, field.ty)
        && kind != Kind::Pristine
        && field.ty.withheld == 0
        && (matches!(field.mode, Mode::Var | Mode::Val) || kind != Kind::Number)
}
