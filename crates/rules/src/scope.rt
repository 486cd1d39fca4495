// A scope: the types of the slots that a record finds.
ghost use Rattle.std.specs.Prelude.{◌≡◌, ◌≤◌, ◌&&◌, ◌||◌, length, take, map, ◌==◌, nat_lt};
ghost use Rattle.table.specs.Types.{is_number, is_alias, is_owned, is_pristine};
ghost use Rattle.rules.specs.Rules.{first, below, distinct, flow_to};
ghost use Rattle.rules.specs.Scoped.{types_in, slot_in, there_in, mode_in, field_type_in, params_in, by_number, refusal_of};

use super::body::Body;
use super::flow::can_flow;
use table::fault::Refusal;
use table::types::{Kind, Mode, Ty};

#[derive(Clone, Copy)]
pub struct Scope<'t, 's> {
    pub body: Body<'t>,
    pub types: &'s [Ty],
}

// Goes on where all premises hold, and is refused by the first that fails.
pub fn require_all(premises: &[(Refusal, bool)]) -> Result<(), Refusal>
    ensures { refusal_of result ≡ first (map by_number premises.now) }
{
    premises
        .iter()
        .find(|(_, holds)| !*holds)
        .map_or(Ok(()), |(refusal, _)| Err(*refusal))
}

// What rules ask of slots. A slot that is not in scope reads as a number.
impl<'t, 's> Scope<'t, 's> {
    pub fn in_scope(self, x: u8) -> bool
        ensures { result ≡ nat_lt x (length (types_in self.entry)) }
    {
        (x as usize) < self.types.len()
    }

    // Whether z is the lowest slot not in scope.
    pub fn free(self, z: u8) -> bool
        ensures { result ≡ (z == length (types_in self.entry) && nat_lt z 16) }
    {
        z as usize == self.types.len() && z < 16
    }

    pub fn slot(self, x: u8) -> Ty
        ensures { result ≡ slot_in self.entry x }
    {
        self.types.get(x as usize).copied().unwrap_or(Ty::NUMBER)
    }

    pub fn kind(self, x: u8) -> Kind
        ensures { result ≡ (slot_in self.entry x).kind }
    {
        self.slot(x).kind
    }

    // An alias or owned. A word of the rules, as `is_held` is: the premises name it.
    pub fn is_lasting(self, x: u8) -> bool
        ensures { result ≡ (is_alias (slot_in self.entry x).kind || is_owned (slot_in self.entry x).kind) }
    {
        matches!(self.kind(x), Kind::Alias | Kind::Owned)
    }

    // Owned or pristine.
    pub fn is_held(self, x: u8) -> bool
        ensures { result ≡ (is_owned (slot_in self.entry x).kind || is_pristine (slot_in self.entry x).kind) }
    {
        matches!(self.kind(x), Kind::Owned | Kind::Pristine)
    }

    // Whether x's struct has a field f.
    pub fn has_field(self, x: u8, f: u8) -> bool
        ensures { result ≡ there_in self.entry x f }
    {
        self.body.has_field(self.slot(x).strukt, f)
    }

    // Half of a field, as `field_type` is: the premises name each.
    pub fn mode(self, x: u8, f: u8) -> Mode
        ensures { result ≡ mode_in self.entry x f }
    {
        self.body.field(self.slot(x).strukt, f).mode
    }

    // The declared type of field f of x's struct.
    pub fn field_type(self, x: u8, f: u8) -> Ty
        ensures { result ≡ field_type_in self.entry x f }
    {
        self.body.field(self.slot(x).strukt, f).ty
    }

    // Whether all of these slots are in scope.
    pub fn all_in_scope(self, slots: &[u8]) -> bool
        ensures { result ≡ below (length (types_in self.entry)) slots.now }
    {
        slots.iter().all(|x| self.in_scope(*x))
    }

    // Whether each slot flows to the parameter of function n at its place.
    pub fn flow_to(self, slots: &[u8], n: usize) -> bool
        requires { length slots.now ≤ length (params_in self n) }
        ensures { result ≡ flow_to (types_in self.entry) slots.now (params_in self.entry n) }
    {
        slots
            .iter()
            .enumerate()
            .all(|(i, x)| can_flow(self.slot(*x), self.body.param(n, i)))
    }

    // The bytes that are a call's arguments: so many as function n has parameters.
    pub fn arguments<'a>(self, n: usize, bytes: &'a [u8]) -> &'a [u8]
        ensures value { result.now ≡ take (length (params_in self.entry n)) bytes.now }
        ensures few { length result.now ≤ length (params_in self.entry n) }
    {
        let count = self.body.params(n);
        &bytes[..count.min(bytes.len())]
    }
}

// Whether no slot is named twice.
pub fn all_differ(slots: &[u8]) -> bool
    ensures { result ≡ distinct slots.now }
{
    match slots {
        [x, rest @ ..] => !rest.contains(x) && all_differ(rest),
        [] => true,
    }
}
