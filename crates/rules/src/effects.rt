// What an accepted record does to the types in scope.
ghost use Rattle.std.specs.Prelude.{◌≡◌, ◌<◌, length, if◌then◌else◌, slice_set};
ghost use Rattle.table.specs.declared.types.Kind.TheVariants.{Alias};
ghost use Rattle.table.specs.Types.{is_number};
ghost use Rattle.table.specs.Reading.{number};
ghost use Rattle.table.specs.Records.{meant};
ghost use Rattle.rules.specs.Rules.{type, withholding, flows, with, without};
ghost use Rattle.rules.specs.Scoped.{types_in, slot_in, field_type_in, Low, Changes, binding, changed};

use super::flow::{alone, can_flow};
use super::scope::Scope;
use table::records::{Record, Test};
use table::types::{Kind, Ty};

// A slot, and the type that it has in a yes block.
#[derive(Clone, Copy, Drop)]
pub struct Change {
    pub slot: u8,
    pub ty: Ty,
}

fn type_of(kind: Kind, strukt: u8, withheld: u8) -> Ty
    ensures { result ≡ type kind strukt withheld }
{
    Ty {
        kind,
        strukt,
        barred: 0,
        withheld,
    }
}

// What a reader gets of a value: a number, or an alias of its struct.
fn lent(ty: Ty, withheld: u8) -> Ty
    ensures { result ≡ (if is_number ty.kind then number else type Alias ty.strukt withheld) }
{
    if ty.kind == Kind::Number {
        Ty::NUMBER
    } else {
        type_of(Kind::Alias, ty.strukt, withheld)
    }
}

impl<'t, 's> Scope<'t, 's> {
    // The type of x once y was set in its field f: what flows there is no longer withheld, a tentative alias is.
    fn once_set(self, x: u8, f: u8, y: u8) -> Ty
        requires { f < 8 }
        ensures { result ≡ withholding (slot_in self.entry x) (if flows (slot_in self.entry y) (field_type_in self.entry x f) then without (slot_in self.entry x).withheld f else with (slot_in self.entry x).withheld f) }
    {
        let ty = self.slot(x);
        let withheld = if can_flow(self.slot(y), self.field_type(x, f)) {
            ty.withheld & !alone(f)
        } else {
            ty.withheld | alone(f)
        };
        Ty { withheld, ..ty }
    }

    // The type that an accepted record binds.
    pub fn binds(self, said: Record<'_>) -> Option<Ty>
        requires { Low (meant said) }
        ensures { result ≡ binding self.entry (meant said.entry) }
    {
        // An arm an op: the ops are a closed enum, and a closure for each would only hide which.
        match said {
            Record::New { s, .. } | Record::Null { s, .. } => Some(type_of(Kind::Pristine, s, 0)),
            Record::Int { .. } | Record::Add { .. } => Some(Ty::NUMBER),
            Record::Share { x, .. } => Some(lent(self.slot(x), self.slot(x).withheld)),
            Record::Own { x, .. } => Some(type_of(Kind::Owned, self.slot(x).strukt, 0)),
            Record::Get { x, f, .. } => Some(lent(self.field_type(x, f), 0)),
            Record::Take { x, f, .. } => Some(self.field_type(x, f)),
            Record::Set { x, f, y, .. } => Some(self.once_set(x, f, y)),
            Record::Call { n, .. } => Some(self.body.result(n as usize)),
            Record::Fork { .. }
            | Record::Return { .. }
            | Record::Again { .. }
            | Record::Join { .. }
            | Record::Emit { .. }
            | Record::Ask { .. } => None,
        }
    }

    // Not an `Option`: who opens a yes block then writes a type, and puts one back, without a case for no change.
    fn unchanged(self, x: u8) -> Change
        ensures slot { result.slot ≡ x }
        ensures types { slice_set (types_in self.entry) x result.ty ≡ types_in self.entry }
    {
        Change {
            slot: x,
            ty: self.slot(x),
        }
    }

    // The slot whose type changes in an accepted test's yes block, and that type; where none changes, a slot with the type that it has.
    pub fn changes(self, test: Test) -> Change
        requires { Changes (types_in self) test }
        ensures types { slice_set (types_in self.entry) result.slot result.ty ≡ changed self.entry test }
        ensures slot { result.slot < length (types_in self.entry) }
    {
        // An arm an op: the ops are a closed enum, and a closure for each would only hide which.
        match test {
            Test::Nil { x }
            | Test::Same { x, .. }
            | Test::Equal { x, .. }
            | Test::Less { x, .. }
            | Test::Link { x, .. } => self.unchanged(x),
            Test::Unlink { x, f, y, g } => Change {
                slot: y,
                ty: Ty {
                    withheld: alone(g),
                    ..self.field_type(x, f)
                },
            },
            Test::Swap { x, f, y, .. } => Change {
                slot: y,
                ty: self.field_type(x, f),
            },
            // field f is withheld too
            Test::Try { x, f, .. } | Test::Fix { x, f, .. } | Test::Stable { x, f } => {
                let ty = self.slot(x);
                Change {
                    slot: x,
                    ty: Ty {
                        withheld: ty.withheld | alone(f),
                        ..ty
                    },
                }
            }
        }
    }
}
