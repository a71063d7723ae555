// The worked examples about the rules, as theorems: runs of a module, struck and unstruck, verdicts of the
// check, and what the sample plan does.
#![tactic(auto)]

ghost use Rattle.worked.specs.Examples.{WorkedExamples};

// Numbers of the worked examples.
#[derive(Clone, Copy)]
pub struct Figures {
    // The steps of the module that stores 7 at 5.
    pub steps: u8,
    // The place at which it is refused if blue's store reads green's registers.
    pub place: u8,
    // The need of the sample plan.
    pub need: u8,
}

// Carries the worked examples, all of them; answers their numbers.
pub fn worked_examples() -> Figures
    ensures { WorkedExamples result.steps result.place result.need }
{
    Figures {
        steps: 7,
        place: 5,
        need: 55,
    }
}
