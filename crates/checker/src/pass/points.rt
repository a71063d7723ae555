// What a pass points at.
ghost use Rattle.std.specs.Prelude.{◌≡◌};
ghost use Rattle.rules.specs.Limits.{in_force};
ghost use Rattle.rules.specs.Words.{Passes};
ghost use Rattle.checker.specs.Passing.{words_of, one-halt};

use super::Pass;

// One instruction, one block, the instruction halt, a block that starts at 0, and its card, all free.
static HALT: [u32; 13] = [1, 1, 0x0f00_0000, 0, 0, 0, 0, 0, 0, 0, 0, 0, 0];

impl<'m> Pass<'m> {
    // A pass over the module of one halt.
    #[tactic(auto, using(crate::proofs::Halting::halt_passes))]
    pub fn new() -> Pass<'m>
        ensures { words_of result ≡ one-halt }
    {
        Pass { words: &HALT }
    }

    // The words that passed.
    pub fn words(&self) -> &'m [u32]
        ensures { result.now ≡ words_of self.now }
    {
        self.words
    }

    // A pass over words that passed.
    pub(crate) fn over(words: &'m [u32]) -> Pass<'m>
        requires { Passes in_force words.now }
        ensures { words_of result ≡ words.now }
    {
        Pass { words }
    }
}
