// The types in scope, in a list over the scratch that a caller lends.
ghost use Rattle.std.specs.Prelude.{◌≡◌, ◌<◌, ◌≤◌, [], length, None};
ghost use Rattle.table.specs.Records.{meant};
ghost use Rattle.list.specs.Held.{room};
ghost use Rattle.rules.specs.Rules.{bound, yes_types};
ghost use Rattle.rules.specs.Scopes.{grown};
ghost use Rattle.rules.specs.Seen.{program_in, function_in};
ghost use Rattle.rules.specs.Parts.{refused_in, test_refused_in};

use super::body::Body;
use super::scope::Scope;
use list::Bounded;
use table::records::{Record, Test};
use table::types::Ty;

// There is room for all sixteen slots.
#[derive(Drop)]
pub struct InScope<'l, 'a> {
    pub list: &'l mut Bounded<'a, Ty>,
    ghost roomy: { 16 ≤ room list.now },
}

// What the end of a test's block brings back: how many types were in scope, and the one that the test changed.
#[derive(Clone, Copy, Default, Drop)]
pub struct Saved {
    pub depth: usize,
    pub slot: usize,
    pub was: Ty,
}

impl InScope<'_, '_> {
    ghost use Rattle.rules.specs.InScope.{in_scope, back, SameList};

    // Brings a function's parameters into scope.
    pub fn enter(&mut self, body: Body<'_>)
        requires empty { in_scope self.old ≡ [] }
        ensures types { in_scope self.new ≡ (function_in body.entry).params }
        ensures same { SameList self.old self.new }
    {
        // By place: a table lends its bytes, and no slice of types.
        for i in 0..body.params(body.function) {
            let _ = self.list.push(body.param(body.function, i));
        }
    }

    // Brings what an accepted record binds into scope.
    pub fn bind(&mut self, body: Body<'_>, said: Record<'_>)
        requires allowed { refused_in body (in_scope self.old) (meant said) ≡ None }
        ensures types { in_scope self.new ≡ grown (in_scope self.old) (bound (program_in body.entry) (function_in body.entry) (in_scope self.old) (meant said.entry)) }
        ensures same { SameList self.old self.new }
    {
        let scope = Scope {
            body,
            types: self.list.all(),
        };
        if let Some(ty) = scope.binds(said) {
            let _ = self.list.push(ty);
        }
    }

    // `allowed` ties body, test and the types in scope, which change from call to call, so no value can carry it: it stays a clause.

    // Changes the type that an accepted test's yes block changes, and answers what brings it back.
    pub fn change(&mut self, body: Body<'_>, test: Test) -> Saved
        requires allowed { test_refused_in body (in_scope self.old) test ≡ None }
        ensures types { in_scope self.new ≡ yes_types (program_in body.entry) (function_in body.entry) (in_scope self.old) test }
        ensures back { back (in_scope self.new) result ≡ in_scope self.old }
        ensures depth { result.depth ≡ length (in_scope self.new) }
        ensures slot { result.slot < result.depth }
        ensures length { length (in_scope self.new) ≡ length (in_scope self.old) }
        ensures same { SameList self.old self.new }
    {
        let scope = Scope {
            body,
            types: self.list.all(),
        };
        let change = scope.changes(test);
        let slot = change.slot as usize;
        let was = self.list.all()[slot];
        let depth = self.list.len();
        let saved = Saved { depth, slot, was };
        self.list.set(slot, change.ty);
        saved
    }

    pub fn bring_back(&mut self, saved: Saved)
        ensures types { in_scope self.new ≡ back (in_scope self.old) saved }
        ensures same { SameList self.old self.new }
    {
        self.list.truncate(saved.depth);
        self.list.set(saved.slot, saved.was);
    }
}
