// One rule for each op: its premises in reading order, with their refusals. All are computed, so `&` and `|` do.
ghost use Rattle.std.specs.Prelude.{◌≡◌, ◌&&◌, ◌==◌, not, length, map, nat_lt, if◌then◌else◌};
ghost use Rattle.table.specs.declared.records.Test.TheVariants as asked;
ghost use Rattle.table.specs.Records as op;
ghost use Rattle.table.specs.Records.{meant};
ghost use Rattle.table.specs.Types.{is_owned, is_pristine, is_once, is_var, is_spec};
ghost use Rattle.rules.specs.Rules.{passes};
ghost use Rattle.rules.specs.Scoped.{types_in, slot_in, there_in, mode_in, field_type_in, params_in, tentative_in, by_number, refusal_of, refused, refused_test};

use super::flow::{can_flow, has_bit, is_alone};
use super::scope::{Scope, all_differ, require_all};
use table::fault::Refusal;
use table::records::{Record, Test};
use table::types::{Kind, Mode};
use table::zeros_from;

impl<'t, 's> Scope<'t, 's> {
    // Goes on where a record keeps its rule; its place in the blocks is not asked.
    pub fn allow(self, said: Record<'_>) -> Result<(), Refusal>
        ensures { refusal_of result ≡ refused self.entry (meant said.entry) }
    {
        // An arm an op: the ops are a closed enum, and a closure for each would only hide which.
        match said {
            Record::New { z, s } | Record::Null { z, s } => self.fresh_rule(z, s),
            Record::Int { z, .. } => require_all(&[(Refusal::Binding, self.free(z))]),
            Record::Share { z, x } => self.share_rule(z, x),
            Record::Own { z, x } => self.own_rule(z, x),
            Record::Get { z, x, f } => self.get_rule(z, x, f),
            Record::Take { z, x, f } => self.take_rule(z, x, f),
            Record::Set { z, x, f, y } => self.set_rule(z, x, f, y),
            Record::Add { z, x, y } => self.add_rule(z, x, y),
            Record::Call { z, n, args } => self.call_rule(z, n, args),
            Record::Fork { n, args } => self.fork_rule(n, args),
            Record::Return { x } => self.return_rule(x),
            Record::Again { args } => self.again_rule(args),
            Record::Join { .. } => Ok(()),
            Record::Emit { x } => self.emit_rule(x),
            Record::Ask { test, .. } => self.allow_test(test),
        }
    }

    // A new object and null are bound alike.
    fn fresh_rule(self, z: u8, s: u8) -> Result<(), Refusal>
        ensures new { refusal_of result ≡ refused self.entry (op.New z s) }
        ensures null { refusal_of result ≡ refused self.entry (op.Null z s) }
    {
        require_all(&[
            (Refusal::Binding, self.free(z)),
            (Refusal::Callee, self.body.has_struct(s)),
        ])
    }

    fn share_rule(self, z: u8, x: u8) -> Result<(), Refusal>
        ensures { refusal_of result ≡ refused self.entry (op.Share z x) }
    {
        require_all(&[
            (Refusal::Binding, self.free(z)),
            (Refusal::Operand, self.in_scope(x)),
            (Refusal::Kind, self.kind(x) != Kind::Pristine),
        ])
    }

    fn own_rule(self, z: u8, x: u8) -> Result<(), Refusal>
        ensures { refusal_of result ≡ refused self.entry (op.Own z x) }
    {
        require_all(&[
            (Refusal::Binding, self.free(z)),
            (Refusal::Operand, self.in_scope(x)),
            (Refusal::Kind, self.kind(x) == Kind::Pristine),
            (Refusal::Withheld, self.slot(x).withheld == 0),
        ])
    }

    fn get_rule(self, z: u8, x: u8, f: u8) -> Result<(), Refusal>
        ensures { refusal_of result ≡ refused self.entry (op.Get z x f) }
    {
        require_all(&[
            (Refusal::Binding, self.free(z)),
            (Refusal::Operand, self.in_scope(x)),
            (Refusal::Kind, self.kind(x) != Kind::Number),
            (Refusal::Field, self.has_field(x, f)),
            (
                Refusal::Withheld,
                (self.mode(x, f) != Mode::Var) | (self.kind(x) != Kind::Alias),
            ),
        ])
    }

    fn take_rule(self, z: u8, x: u8, f: u8) -> Result<(), Refusal>
        ensures { refusal_of result ≡ refused self.entry (op.Take z x f) }
    {
        require_all(&[
            (Refusal::Binding, self.free(z)),
            (Refusal::Operand, self.in_scope(x)),
            (Refusal::Kind, self.is_held(x)),
            (
                Refusal::Field,
                self.has_field(x, f) & (self.mode(x, f) == Mode::Var),
            ),
        ])
    }

    // What x may have set in it: of a pristine object all but a once field, of an owned one a var field.
    fn may_set(self, x: u8, f: u8) -> bool
        ensures { result ≡ (if is_pristine (slot_in self.entry x).kind then not (is_once (mode_in self.entry x f)) else is_var (mode_in self.entry x f)) }
    {
        if self.kind(x) == Kind::Pristine {
            self.mode(x, f) != Mode::Once
        } else {
            self.mode(x, f) == Mode::Var
        }
    }

    // Whether y is an alias with an empty set, and f a field that will own it.
    fn is_tentative(self, x: u8, f: u8, y: u8) -> bool
        ensures { result ≡ tentative_in self.entry x f y }
    {
        let field = self.field_type(x, f);
        let from = self.slot(y);
        (self.mode(x, f) != Mode::Var)
            & (field.kind == Kind::Owned)
            & (from.kind == Kind::Alias)
            & (from.strukt == field.strukt)
            & (from.withheld == 0)
    }

    fn set_rule(self, z: u8, x: u8, f: u8, y: u8) -> Result<(), Refusal>
        ensures { refusal_of result ≡ refused self.entry (op.Set z x f y) }
    {
        require_all(&[
            (Refusal::Binding, self.free(z)),
            (Refusal::Operand, self.are_two(x, y)),
            (Refusal::Kind, self.is_held(x)),
            (Refusal::Field, self.has_field(x, f) & self.may_set(x, f)),
            (
                Refusal::Flow,
                can_flow(self.slot(y), self.field_type(x, f)) | self.is_tentative(x, f, y),
            ),
        ])
    }

    fn add_rule(self, z: u8, x: u8, y: u8) -> Result<(), Refusal>
        ensures { refusal_of result ≡ refused self.entry (op.Add z x y) }
    {
        require_all(&[
            (Refusal::Binding, self.free(z)),
            (Refusal::Operand, self.in_scope(x) & self.in_scope(y)),
            (
                Refusal::Kind,
                (self.kind(x) == Kind::Number) & (self.kind(y) == Kind::Number),
            ),
        ])
    }

    // What a call, a fork and `again` ask of their bytes: so many arguments as function n has parameters, and zeros past them.
    fn passing(self, n: usize, args: &[u8], there: bool) -> [(Refusal, bool); 3]
        ensures { map by_number result ≡ passes (types_in self.entry) (params_in self.entry n) args.now there }
    {
        let given = self.arguments(n, args);
        [
            (
                Refusal::Operand,
                self.all_in_scope(given) & all_differ(given),
            ),
            (
                Refusal::Callee,
                there & zeros_from(args, self.body.params(n)),
            ),
            (Refusal::Flow, self.flow_to(given, n)),
        ]
    }

    fn call_rule(self, z: u8, n: u8, args: &[u8]) -> Result<(), Refusal>
        ensures { refusal_of result ≡ refused self.entry (op.Call z n args.now) }
    {
        let [operands, callee, flow] = self.passing(n as usize, args, self.body.has_function(n));
        require_all(&[(Refusal::Binding, self.free(z)), operands, callee, flow])
    }

    fn fork_rule(self, n: u8, args: &[u8]) -> Result<(), Refusal>
        ensures { refusal_of result ≡ refused self.entry (op.Fork n args.now) }
    {
        require_all(&self.passing(n as usize, args, self.body.has_function(n)))
    }

    fn return_rule(self, x: u8) -> Result<(), Refusal>
        ensures { refusal_of result ≡ refused self.entry (op.Return x) }
    {
        let result = self.body.result(self.body.function);
        require_all(&[
            (Refusal::Operand, self.in_scope(x)),
            (Refusal::Flow, can_flow(self.slot(x), result)),
        ])
    }

    fn again_rule(self, args: &[u8]) -> Result<(), Refusal>
        ensures { refusal_of result ≡ refused self.entry (op.Again args.now) }
    {
        require_all(&self.passing(self.body.function, args, true))
    }

    fn emit_rule(self, x: u8) -> Result<(), Refusal>
        ensures { refusal_of result ≡ refused self.entry (op.Emit x) }
    {
        require_all(&[
            (Refusal::Operand, self.in_scope(x)),
            (Refusal::Kind, self.kind(x) == Kind::Number),
        ])
    }
}

// The rules of the tests.
impl<'t, 's> Scope<'t, 's> {
    fn allow_test(self, test: Test) -> Result<(), Refusal>
        ensures { refusal_of result ≡ refused_test self.entry test }
    {
        // An arm an op: the ops are a closed enum, and a closure for each would only hide which.
        match test {
            Test::Nil { x } => self.nil_rule(x),
            Test::Same { x, y } => self.same_rule(x, y),
            Test::Equal { x, y } | Test::Less { x, y } => self.compare_rule(x, y),
            Test::Link { x, f, y, g } => self.link_rule(x, f, y, g),
            Test::Unlink { x, f, y, g } => self.unlink_rule(x, f, y, g),
            Test::Swap { x, f, y, w } => self.swap_rule(x, f, y, w),
            Test::Try { x, f, y } => self.try_rule(x, f, y),
            Test::Fix { x, f, y } => self.fix_rule(x, f, y),
            Test::Stable { x, f } => self.stable_rule(x, f),
        }
    }

    // Whether x and y are two slots in scope.
    fn are_two(self, x: u8, y: u8) -> bool
        ensures { result ≡ (nat_lt x (length (types_in self.entry)) && nat_lt y (length (types_in self.entry)) && not (x == y)) }
    {
        self.in_scope(x) & self.in_scope(y) & (x != y)
    }

    // Whether f is a spec field of x's struct.
    fn has_spec(self, x: u8, f: u8) -> bool
        ensures { result ≡ (there_in self.entry x f && is_spec (mode_in self.entry x f)) }
    {
        self.has_field(x, f) & (self.mode(x, f) == Mode::Spec)
    }

    fn nil_rule(self, x: u8) -> Result<(), Refusal>
        ensures { refusal_of result ≡ refused_test self.entry (asked.Nil x) }
    {
        require_all(&[
            (Refusal::Operand, self.in_scope(x)),
            (Refusal::Kind, self.kind(x) != Kind::Number),
        ])
    }

    fn same_rule(self, x: u8, y: u8) -> Result<(), Refusal>
        ensures { refusal_of result ≡ refused_test self.entry (asked.Same x y) }
    {
        require_all(&[
            (Refusal::Operand, self.in_scope(x) & self.in_scope(y)),
            (
                Refusal::Kind,
                (self.kind(x) != Kind::Number) & (self.kind(y) != Kind::Number),
            ),
            (Refusal::Flow, self.slot(x).strukt == self.slot(y).strukt),
        ])
    }

    // Two numbers, equal or less.
    fn compare_rule(self, x: u8, y: u8) -> Result<(), Refusal>
        ensures equal { refusal_of result ≡ refused_test self.entry (asked.Equal x y) }
        ensures less { refusal_of result ≡ refused_test self.entry (asked.Less x y) }
    {
        require_all(&[
            (Refusal::Operand, self.in_scope(x) & self.in_scope(y)),
            (
                Refusal::Kind,
                (self.kind(x) == Kind::Number) & (self.kind(y) == Kind::Number),
            ),
        ])
    }

    // Whether field f of x's struct owns objects of y's struct.
    fn owns(self, x: u8, f: u8, y: u8) -> bool
        ensures { result ≡ (is_owned (field_type_in self.entry x f).kind && (field_type_in self.entry x f).strukt == (slot_in self.entry y).strukt) }
    {
        let field = self.field_type(x, f);
        (field.kind == Kind::Owned) & (field.strukt == self.slot(y).strukt)
    }

    fn link_rule(self, x: u8, f: u8, y: u8, g: u8) -> Result<(), Refusal>
        ensures { refusal_of result ≡ refused_test self.entry (asked.Link x f y g) }
    {
        require_all(&[
            (Refusal::Operand, self.are_two(x, y)),
            (
                Refusal::Kind,
                self.is_lasting(x) & (self.kind(y) == Kind::Pristine),
            ),
            (
                Refusal::Field,
                self.has_spec(x, f) & self.has_field(y, g) & (self.mode(y, g) == Mode::Val),
            ),
            (Refusal::Withheld, is_alone(self.slot(y).withheld, g)),
            (
                Refusal::Flow,
                self.owns(x, f, y) & can_flow(self.field_type(x, f), self.field_type(y, g)),
            ),
        ])
    }

    fn unlink_rule(self, x: u8, f: u8, y: u8, g: u8) -> Result<(), Refusal>
        ensures { refusal_of result ≡ refused_test self.entry (asked.Unlink x f y g) }
    {
        let field = self.field_type(x, f);
        require_all(&[
            (Refusal::Operand, self.are_two(x, y)),
            (
                Refusal::Kind,
                self.is_lasting(x) & (self.kind(y) == Kind::Alias),
            ),
            (
                Refusal::Field,
                self.has_spec(x, f) & self.has_field(y, g) & (self.mode(y, g) != Mode::Var),
            ),
            (
                Refusal::Withheld,
                (self.mode(y, g) == Mode::Val) | has_bit(self.slot(y).withheld, g),
            ),
            (
                Refusal::Flow,
                (self.slot(y).strukt == field.strukt) & can_flow(self.field_type(y, g), field),
            ),
        ])
    }

    fn swap_rule(self, x: u8, f: u8, y: u8, w: u8) -> Result<(), Refusal>
        ensures { refusal_of result ≡ refused_test self.entry (asked.Swap x f y w) }
    {
        let field = self.field_type(x, f);
        require_all(&[
            (
                Refusal::Operand,
                self.in_scope(x)
                    & self.in_scope(y)
                    & self.in_scope(w)
                    & (x != y)
                    & (x != w)
                    & (y != w),
            ),
            (
                Refusal::Kind,
                self.is_lasting(x) & (self.kind(y) == Kind::Alias),
            ),
            (Refusal::Field, self.has_spec(x, f)),
            (
                Refusal::Flow,
                (self.slot(y).strukt == field.strukt) & can_flow(self.slot(w), field),
            ),
        ])
    }

    fn try_rule(self, x: u8, f: u8, y: u8) -> Result<(), Refusal>
        ensures { refusal_of result ≡ refused_test self.entry (asked.Try x f y) }
    {
        require_all(&[
            (Refusal::Operand, self.are_two(x, y)),
            (
                Refusal::Kind,
                self.is_lasting(x) & (self.kind(y) == Kind::Pristine),
            ),
            (
                Refusal::Field,
                self.has_field(x, f) & (self.mode(x, f) == Mode::Once),
            ),
            (Refusal::Withheld, self.slot(y).withheld == 0),
            (Refusal::Flow, can_flow(self.slot(y), self.field_type(x, f))),
        ])
    }

    fn fix_rule(self, x: u8, f: u8, y: u8) -> Result<(), Refusal>
        ensures { refusal_of result ≡ refused_test self.entry (asked.Fix x f y) }
    {
        require_all(&[
            (Refusal::Operand, self.in_scope(x) & self.in_scope(y)),
            (
                Refusal::Kind,
                self.is_lasting(x) & (self.kind(y) != Kind::Number),
            ),
            (Refusal::Field, self.has_spec(x, f)),
            (
                Refusal::Flow,
                self.slot(y).strukt == self.field_type(x, f).strukt,
            ),
        ])
    }

    fn stable_rule(self, x: u8, f: u8) -> Result<(), Refusal>
        ensures { refusal_of result ≡ refused_test self.entry (asked.Stable x f) }
    {
        require_all(&[
            (Refusal::Operand, self.in_scope(x)),
            (Refusal::Kind, self.is_lasting(x)),
            (
                Refusal::Field,
                self.has_field(x, f)
                    & ((self.mode(x, f) == Mode::Once) | (self.mode(x, f) == Mode::Spec)),
            ),
        ])
    }
}
