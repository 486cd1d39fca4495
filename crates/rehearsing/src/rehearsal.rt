// What came of a table: a refusal, or the numbers that its run put out and its threads.
use super::tally::Tally;
use list::Front;
use table::Fault;

#[derive(Clone, Copy, Drop)]
pub struct Rehearsal {
    pub numbers: Front<u32, 256>,
    pub tally: Tally,
}

// The run of a table, or how it is refused.
#[derive(Clone, Copy, Drop)]
pub struct Report {
    pub outcome: Result<Rehearsal, Fault>,
}
