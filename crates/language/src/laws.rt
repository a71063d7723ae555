// Laws of the meaning of plans.
ghost use Rattle.std.specs.Prelude.{◌≡◌};
ghost use Rattle.language.specs.Meaning.{ending, fine, stuck, Book};
ghost use Rattle.language.specs.Laws.{MeaningLaws};

// The endings of a plan: at its end, and at a cell that is not writable. Every plan keeps the laws
// of repeating and of stopping.
// Stays (1): a rule of the project: a plan's endings have the numbers that the simulator's calls answer.
pub fn endings() -> (u8, u8)
    ensures fine { (s : Book) → result.0 ≡ ending (fine s) }
    ensures stuck { (s : Book) → result.1 ≡ ending (stuck s) }
    ensures laws { MeaningLaws }
{
    (1, 2)
}
