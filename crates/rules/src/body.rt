// The body of a function, and what a check reads of the table around it.
#![tactic(auto, unfolding(crate::specs::Seen::seen))]

ghost use Rattle.std.specs.Prelude.{◌≡◌, ◌≤◌, [], length, None, nat_lt, slice_index_or};
ghost use Rattle.table.specs.Records.{meant_by};
ghost use Rattle.table.specs.Reading.{number};
ghost use Rattle.rules.specs.Rules.{callee, declared};
ghost use Rattle.rules.specs.Seen.{program_in, function_in};

use table::records::Record;
use table::types::{Field, Ty};
use table::view::Table;

#[derive(Clone, Copy)]
pub struct Body<'t> {
    pub table: Table<'t>,
    pub function: usize,
}

// What is not there has no fields, no parameters and no records.
impl<'t> Body<'t> {
    // As `has_function` but for the part asked of; a name for each reads plainer than one function of a count.
    pub fn has_struct(self, s: u8) -> bool
        ensures { result ≡ nat_lt s (length (program_in self.entry).structs) }
    {
        (s as usize) < self.table.structs()
    }

    pub fn has_function(self, n: u8) -> bool
        ensures { result ≡ nat_lt n (length (program_in self.entry).functions) }
    {
        (n as usize) < self.table.functions()
    }

    pub fn has_field(self, s: u8, f: u8) -> bool
        ensures { result ≡ nat_lt f (length (slice_index_or (program_in self.entry).structs s [])) }
    {
        (f as usize) < self.table.fields(s as usize)
    }

    #[tactic(auto, using(crate::proofs::Seen::field_seen))]
    pub fn field(self, s: u8, f: u8) -> Field
        ensures { result ≡ declared (program_in self.entry) s f }
    {
        self.table
            .field(s as usize, f as usize)
            .unwrap_or(Field::NONE)
    }

    pub fn params(self, n: usize) -> usize
        ensures value { result ≡ length (callee (program_in self.entry) n).params }
        ensures few { result ≤ 4 }
    {
        self.table.params(n)
    }

    #[tactic(auto, using(crate::proofs::Seen::param_seen))]
    pub fn param(self, n: usize, i: usize) -> Ty
        ensures { result ≡ slice_index_or (callee (program_in self.entry) n).params i number }
    {
        self.table.param(n, i).unwrap_or(Ty::NUMBER)
    }

    #[tactic(auto, using(crate::proofs::Seen::result_seen))]
    pub fn result(self, n: usize) -> Ty
        ensures { result ≡ (callee (program_in self.entry) n).result }
    {
        self.table.result(n).unwrap_or(Ty::NUMBER)
    }

    // How many records it has.
    pub fn records(self) -> usize
        ensures value { result ≡ length (function_in self.entry).records }
        ensures few { result ≤ 255 }
    {
        self.table.records(self.function)
    }

    // What record i says, if it says something.
    #[tactic(auto, using(crate::proofs::Seen::record_seen))]
    pub fn record_at(self, i: usize) -> Option<Record<'t>>
        ensures { meant_by result ≡ slice_index_or (function_in self.entry).records i None }
    {
        self.table.record(self.function, i).ok()
    }
}
