// The bytes of a table, and what they hold. Nothing above this crate reads a byte of a table.
#![tactic(auto)]

mod decoding;
pub mod fault;
mod forms;
mod keeping;
mod opening;
pub mod records;
pub mod shown;
pub mod types;
pub mod view;

pub use decoding::decode;
pub use fault::{Fault, Layer, Place};
pub use forms::zeros_from;
pub use opening::open;
pub use view::Table;
