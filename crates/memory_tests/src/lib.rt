// A client of any memory, and lists of questions that both memories answer alike.
#![tactic(auto)]

pub mod asking;
#[cfg(test)]
mod tests;
