// A memory of objects, by its meaning, and two memories that keep it.
#![tactic(auto)]

pub mod byte_image;
pub mod keeping;
pub mod object;
pub mod object_table;
mod records;
pub mod replay;
mod words;
