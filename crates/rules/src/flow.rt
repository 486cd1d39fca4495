// Sets of fields, and flow from one type to another.
ghost use Rattle.std.specs.Prelude.{◌≡◌, ◌^◌, ◌<◌, ◌==◌};
ghost use Rattle.rules.specs.Rules.{has, flows};

use table::types::{Kind, Ty};

// Whether field f is in a set.
#[tactic(auto, using(crate::proofs::Sets::has_high))]
pub fn has_bit(set: u8, f: u8) -> bool
    ensures { result ≡ has set f }
{
    f < 8 && (set >> f) % 2 == 1
}

// Whether field f is all that is in a set.
#[tactic(auto, using(crate::proofs::Sets::alone_high))]
pub fn is_alone(set: u8, f: u8) -> bool
    ensures { result ≡ (set == 2 ^ f) }
{
    f < 8 && set == alone(f)
}

// The set of field f.
pub fn alone(f: u8) -> u8
    requires { f < 8 }
    ensures { result ≡ 2 ^ f }
{
    1 << f
}

// A type flows only within one struct.
pub fn can_flow(from: Ty, to: Ty) -> bool
    ensures { result ≡ flows from to }
{
    from.strukt == to.strukt
        && match (from.kind, to.kind) {
            (Kind::Number, Kind::Number) => true,
            (Kind::Pristine, Kind::Pristine) | (Kind::Owned, Kind::Owned) => {
                from.withheld == to.withheld
            }
            (Kind::Pristine, Kind::Owned) => from.withheld == 0 && to.withheld == 0,
            (Kind::Owned | Kind::Alias, Kind::Alias) => to.withheld & from.withheld == to.withheld,
            _ => false,
        }
}
