// Steps of a table's threads over any memory.
#![tactic(auto)]

mod calls;
mod clashing;
mod committing;
mod standing;
mod starting;
mod steps;
mod turning;

pub use clashing::clash;
pub use starting::start;
pub use steps::step;
