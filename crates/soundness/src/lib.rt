// Checked code under strikes: a word of the machine that changes by itself either leaves the run as it is, or is found.
#![tactic(auto)]

ghost use Rattle.std.specs.Prelude.{◌≡◌};
ghost use Rattle.rules.specs.Limits.{in_force};
ghost use Rattle.soundness.specs.Finding.{Finding};
ghost use Rattle.soundness.specs.Worked.{WorkedRuns};

use isa::limits::QUEUE;

// Carries the theorem on strikes. Answers how many pairs the check may let pend for it: the machine's queue must have
// room for them, or else a run that nothing struck would end in a report.
pub fn strikes_are_found() -> u8
    ensures limit { result ≡ in_force.queue }
    ensures found { Finding result }
{
    QUEUE as u8
}

// Carries the worked examples of runs, unstruck and struck. Answers how many steps the worked module takes.
pub fn worked_runs() -> u8
    ensures { WorkedRuns result }
{
    7
}
