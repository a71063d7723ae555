// The grammar of plans over the marks of a text, and which fault is the first.
#![tactic(auto)]

ghost use Rattle.std.specs.Prelude.{◌≡◌};
ghost use Rattle.grammar.specs.Verdict.{Decided, deepest};

pub mod mark;
pub mod variable;

// How many parentheses and brackets, and how many REPEATs, may be open at once.
pub fn nesting_limits() -> (u8, u8)
    ensures brackets { result.0 ≡ deepest.brackets }
    ensures repeats { result.1 ≡ deepest.repeats }
{
    (16, 4)
}

// Marks and their end are exactly one plan whose nesting stays within the limits, or have exactly
// one first fault.
pub fn decided() -> u8
    ensures { Decided }
{
    0
}
