// The calls of a simulator as values, and what they answer.
ghost use Rattle.std.specs.Prelude.{◌≡◌};
ghost use Rattle.simulator.specs.declared.call.Reply.TheVariants.{Shown};
ghost use Rattle.simulator.specs.declared.call.CallFault.TheVariants.{Unfit, Refused};

use crate::refusal::Refusal;
use crate::simulator::calls;
use checker::fault::CheckFault;
use machine::ends::End;

// A call. A load brings words, and not a pass over them: a list of calls cannot hold passes, each of which carries
// its proof. So the words are checked when the load's turn comes.
#[derive(Clone, Copy)]
pub enum Call<'m> {
    Load(&'m [u32]),
    Put { address: u32, word: u32 },
    Run { steps: u32 },
    Strike { place: u32, value: u32 },
    Look { address: u32 },
    Probe { place: u32 },
    Show,
    Clear,
}

// What an accepted call answers.
#[derive(Clone, Copy, Debug, PartialEq, Eq)]
pub enum Reply {
    // A load, a put or a clear was made.
    Done,
    Ran { taken: u32, end: End },
    Struck { bits: u32 },
    // A cell's word, or a latch's.
    Word { word: u32 },
    // What `show` answers, field by field: a struct behind the two tags would make every answer a quarter larger.
    Shown { end: End, steps: u32, stores: u32 },
}

// Why a call was not made: nothing changed.
#[derive(Clone, Copy, Debug, PartialEq, Eq)]
pub enum CallFault {
    // The words of a load do not pass the check.
    Unfit(CheckFault),
    Refused(Refusal),
}

// What a call answers.
pub type Answer = Result<Reply, CallFault>;

impl From<calls::Shown> for Reply {
    ghost from_gives = { λ shown r. r ≡ Shown shown.end shown.steps shown.stores };

    fn from(shown: calls::Shown) -> Reply {
        Reply::Shown {
            end: shown.end,
            steps: shown.steps,
            stores: shown.stores,
        }
    }
}

impl From<CheckFault> for CallFault {
    ghost from_gives = { λ fault e. e ≡ Unfit fault };

    fn from(fault: CheckFault) -> CallFault {
        CallFault::Unfit(fault)
    }
}

impl From<Refusal> for CallFault {
    ghost from_gives = { λ refusal e. e ≡ Refused refusal };

    fn from(refusal: Refusal) -> CallFault {
        CallFault::Refused(refusal)
    }
}
