// The open blocks, in a list with room for the seven that may lie below a body.
ghost use Rattle.std.specs.Prelude.{◌≡◌, length};
ghost use Rattle.list.specs.Held.{room};
ghost use Rattle.rules.specs.Seen.{function_in};

use super::body::Body;
use super::in_scope::Saved;
use super::parts::{Part, Sort};
use list::Bounded;

// An open block: its end, the count of the no block behind it if it is a yes block, and what its end brings back. A test changes the type of one
// slot, and what is bound lies above the depth, so one list of types is enough.
#[derive(Clone, Copy, Default, Drop)]
pub struct Open {
    pub end: usize,
    pub count: Option<u16>,
    pub saved: Saved,
}

// One list for open blocks too, as the project's rules name it: the bounded list over a lent slice, so its room is a ghost field.
#[derive(Drop)]
pub struct Blocks<'l, 'a> {
    pub list: &'l mut Bounded<'a, Open>,
    ghost seven: { room list.now ≡ 7 },
}

impl Open {
    ghost use Rattle.rules.specs.Stacks.{sort_by, following};

    fn sort(self) -> Sort
        ensures { result ≡ sort_by self.count }
    {
        self.count.map_or(Sort::InNo, Sort::InYes)
    }

    // How many records of a no block come behind it.
    pub fn following(self) -> u16
        ensures { result ≡ following self.count }
    {
        self.count.unwrap_or(0)
    }
}

impl Blocks<'_, '_> {
    ghost use Rattle.rules.specs.Stacks.{stack, part_at};

    // The innermost block, from a record on.
    pub fn innermost(&self, body: Body<'_>, place: usize) -> Part
        ensures { result ≡ part_at (length (function_in body.entry).records) place (stack self.now) }
    {
        let whole = Part {
            place,
            levels: 7 - self.list.len() as u8,
            ..Part::whole(body)
        };
        self.list.last().map_or(
            whole,
            |block| Part {
                end: block.end,
                sort: block.sort(),
                floor: block.saved.depth,
                ..whole
            },
        )
    }
}
