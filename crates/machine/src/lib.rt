// A machine that runs a table: threads of frames over a memory of objects.
#![tactic(auto)]

ghost use Rattle.machine.specs.Clashes.{ClashLaw};

pub mod asking;
pub mod clashing;
pub mod fields;
pub mod frames;
pub mod plain;
pub mod reading;
pub mod stacks;
pub mod standing;
mod tests;
pub mod threads;
pub mod values;

// Clash answers the first pair of threads that touch one var field of one object, and none exactly when there is none.
pub fn clash_names_the_first_pair() -> u8
    ensures { ClashLaw }
{
    0
}
