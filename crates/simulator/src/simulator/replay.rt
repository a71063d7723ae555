// Lists of calls, made of a simulator in their order.
ghost use Rattle.std.specs.Prelude.{◌≡◌, IfOk, MatchResult};
ghost use Rattle.checker.specs.Passing.{Judged};
ghost use Rattle.soundness.specs.Finding.{AreWords};
ghost use Rattle.simulator.specs.Model.{model};
ghost use Rattle.simulator.specs.Replay.{verdict, load_words, Responds, Replays};
ghost use Rattle.simulator.specs.Since.{FoundAfter};

use super::Simulator;
use crate::call::{Answer, Call, Reply};
use checker::check::Checker;
use memory::Memory;
use std::alloc::{AllocError, Global};

impl<M: Memory> Simulator<M> {
    // Checks words, and loads them if they pass.
    fn load_words(&mut self, checker: &mut Checker, words: &[u32]) -> Answer
        ensures sized { AreWords words.now }
        ensures judged { Judged words.now (verdict result) }
        ensures answer { result ≡ (load_words (verdict result) words.now (model M.Memory.cells self.old)).0 }
        ensures after { model M.Memory.cells self.new ≡ (load_words (verdict result) words.now (model M.Memory.cells self.old)).1 }
    {
        // Says that each word is of 32 bits (`sized`): the proof knows that of a slice that is read.
        let _ = words.first();
        let pass = checker.check(words)?;
        self.load(&pass)?;
        Ok(Reply::Done)
    }

    // Makes one call.
    fn apply(&mut self, checker: &mut Checker, call: &Call) -> Answer
        ensures { Responds call.now (model M.Memory.cells self.old) result (model M.Memory.cells self.new) }
    {
        match call {
            Call::Load(words) => self.load_words(checker, words),
            Call::Put { address, word } => {
                self.put(*address, *word)?;
                Ok(Reply::Done)
            }
            Call::Run { steps } => {
                let (taken, end) = self.run(*steps)?;
                Ok(Reply::Ran { taken, end })
            }
            Call::Strike { place, value } => {
                let bits = self.strike(*place, *value)?;
                Ok(Reply::Struck { bits })
            }
            Call::Look { address } => {
                let word = self.look(*address);
                Ok(Reply::Word { word })
            }
            Call::Probe { place } => {
                let word = self.probe(*place)?;
                Ok(Reply::Word { word })
            }
            Call::Show => Ok(Reply::from(self.show())),
            Call::Clear => {
                self.clear()?;
                Ok(Reply::Done)
            }
        }
    }

    // Makes the calls, in their order, and answers what they answer; without memory for the answers, makes none.
    // The checker is lent for the loads, whose words must pass before there is anything to load.
    // `reached` says what each call did. `found` says what one strike at most can have done to a simulator that was idle
    // before: it follows from the theorem on strikes, which `soundness::strikes_are_found` states by itself.
    pub fn replay(
        &mut self,
        heap: Global,
        checker: &mut Checker,
        calls: &[Call],
    ) -> Result<Vec<Answer>, AllocError>
        ensures reached { MatchResult result (λ v. Replays (model M.Memory.cells self.old) calls.now v.items (model M.Memory.cells self.new)) (λ _. model M.Memory.cells self.new ≡ model M.Memory.cells self.old) }
        ensures found { IfOk result (λ v. FoundAfter (model M.Memory.cells self.old) calls.now v.items (model M.Memory.cells self.new)) }
    {
        let mut answers = Vec::with_capacity(heap, calls.len())?;
        for call in calls {
            answers.push_reserved(self.apply(checker, call));
        }
        Ok(answers)
    }
}
