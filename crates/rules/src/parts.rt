// Parts of a body: what is left of a block, and which records may stand there.
ghost use Rattle.std.specs.Prelude.{◌≡◌, ◌+◌, ◌-◌, ◌<◌, ◌≤◌};
ghost use Rattle.table.specs.Records.{meant};
ghost use Rattle.rules.specs.Scopes.{shape, Asks};
ghost use Rattle.rules.specs.Scan.{is_yes, fitting};

use super::body::Body;
use table::records::{Record, Test};

// A body, a yes block with the count of its no block, or a no block.
#[derive(Clone, Copy, PartialEq, Eq, Drop)]
pub enum Sort {
    InBody,
    InYes(u16),
    InNo,
}

// A block from a record on, up to its end, with so many levels left below it, and the slots in scope where it began.
#[derive(Clone, Copy, Drop)]
pub struct Part {
    pub place: usize,
    pub end: usize,
    pub levels: u8,
    pub sort: Sort,
    pub floor: usize,
}

impl Sort {
    // Whether it is a yes block whose no block has this count.
    fn is_yes(self, number: u32) -> bool
        ensures { result ≡ is_yes number self }
    {
        matches!(self, Sort::InYes(count) if number == count as u32)
    }
}

impl Part {
    ghost use Rattle.std.specs.Prelude.{length, []};
    ghost use Rattle.rules.specs.Seen.{function_in};
    ghost use Rattle.rules.specs.Stacks.{part_at};

    // The whole body. It is level 1, and seven levels may lie below it.
    pub fn whole(body: Body<'_>) -> Part
        ensures { result ≡ part_at (length (function_in body.entry).records) 0 [] }
    {
        Part {
            place: 0,
            end: body.records(),
            levels: 7,
            sort: Sort::InBody,
            floor: 0,
        }
    }

    // Whether its first record may stand there: how many records may and must follow it, and how deep.
    pub fn fits(self, said: Record<'_>) -> bool
        requires { self.place < self.end }
        ensures { result ≡ fitting self.levels (self.end - (self.place + 1)) self.sort (shape (meant said.entry)) }
    {
        let left = self.end - (self.place + 1);
        // A `match` is plainest: each arm asks by other fields of its record.
        match said {
            Record::Return { .. } | Record::Again { .. } => left == 0,
            Record::Join { number } => left == 0 && self.sort.is_yes(number),
            Record::Ask { test, yes, no } => self.fits_test(left, test, yes, no),
            _ => left != 0 || self.sort == Sort::InNo,
        }
    }

    // A test's yes block is not empty, its blocks end within this one, and only a no block may end with them.
    fn fits_test(self, left: usize, test: Test, yes: u16, no: u16) -> bool
        ensures { result ≡ fitting self.levels left self.sort (Asks test yes no) }
    {
        let reach = yes as usize + no as usize;
        let inside = if self.sort == Sort::InNo {
            reach <= left
        } else {
            reach < left
        };
        yes != 0 && inside && self.levels != 0
    }
}
