// What the rules say of every table.
ghost use Rattle.rules.specs.Examples.{Examples};
ghost use Rattle.rules.specs.Trials.{Trials};
ghost use Rattle.rules.specs.ScopeTrials.{ScopeTrials};
ghost use Rattle.rules.specs.Formed.{ProgramStands};
ghost use Rattle.rules.specs.Blocks.{JoinsStand, FitStands};
ghost use Rattle.rules.specs.Scan.{NumbersStand};

// The verdicts on tables that are given byte by byte, and three facts of flow.
pub fn examples_stand() -> u8
    ensures { Examples }
{
    0
}

// Verdicts on bodies where tests, blocks and withheld fields meet.
pub fn trials_stand() -> u8
    ensures { Trials }
{
    0
}

// The scopes before the records of such bodies.
pub fn scope_trials_stand() -> u8
    ensures { ScopeTrials }
{
    0
}

// A join ends a yes block, and leads behind its no block.
pub fn joins_stand() -> u8
    ensures { JoinsStand }
{
    0
}

// The program of a table has types that keep their rules, and its parts are there and not too many.
pub fn program_stands() -> u8
    ensures { ProgramStands }
{
    0
}

// Every type in use keeps its rules, and scopes and levels keep their bounds.
pub fn fit_stands() -> u8
    ensures { FitStands }
{
    0
}

// The rules refuse with the numbers 20 to 28.
pub fn numbers_stand() -> u8
    ensures { NumbersStand }
{
    0
}
