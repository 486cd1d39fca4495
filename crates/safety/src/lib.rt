// What is promised of every run of an accepted table.
#![tactic(auto)]

ghost use Rattle.safety.specs.Rehearsals.{Rehearsals};
ghost use Rattle.safety.specs.Safe.{TableSafe, RunSafe};
ghost use Rattle.safety.specs.Words.{WordsStand};
ghost use Rattle.safety.specs.References.{NamesStand};

// On every run of every table that is read and accepted: no step is stuck, no two threads clash, and no object has two owners.
pub fn accepted_tables_stay_safe() -> u8
    ensures { TableSafe }
{
    0
}

// The same after every list of threads that step in turn.
pub fn thread_lists_stay_safe() -> u8
    ensures { RunSafe }
{
    0
}

// On every run of every table that is read: words stay below 2^31, and the memory refuses no call of a step.
pub fn words_stay_small() -> u8
    ensures { WordsStand }
{
    0
}

// On every run of every accepted table: references name objects that are there, an object has one owner, and a pristine slot is its only name.
pub fn references_name_objects() -> u8
    ensures { NamesStand }
{
    0
}

// Runs of small programs, and what their steps answer.
pub fn rehearsals_hold() -> u8
    ensures { Rehearsals }
{
    0
}
