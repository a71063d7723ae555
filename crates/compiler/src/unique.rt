// That the rule for texts and outputs decides each of them once.
ghost use Rattle.std.specs.Prelude.{◌≡◌};
ghost use Rattle.compiler.specs.Deciding.{DecidedOnce};

use marks::unique::marks_are_unique;

// How many verdicts a text and an output have: one, as a text has one reading. So the contract of
// `compile` alone says what is accepted, as which plan, and what is refused, with which number, byte
// and layer.
pub fn verdicts_are_unique() -> u8
    ensures one { result ≡ 1 }
    ensures once { DecidedOnce }
{
    marks_are_unique()
}
