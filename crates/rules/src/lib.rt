// The rules of a table's records, and the check that they are kept.
#![tactic(auto)]

mod body;
mod checking;
mod effects;
mod flow;
mod in_scope;
mod nesting;
mod parts;
mod premises;
mod scope;
mod scoping;
pub mod theorems;
mod walking;

pub use checking::check;
pub use scoping::scope_at;
pub use walking::scope_before;
