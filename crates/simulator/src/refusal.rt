// Why a call is refused.
ghost use Rattle.std.specs.Prelude.{◌≡◌};
ghost use Rattle.simulator.specs.Refusals.{number as number_of};
ghost use Rattle.simulator.specs.declared.refusal.Refusal.TheVariants as refusal;

use memory::NotWritable;

#[derive(Clone, Copy, Debug, PartialEq, Eq)]
pub enum Refusal {
    // No run is under way, or for a call that takes an ended run too, none is loaded.
    NotUnderWay,
    // A module is loaded already.
    NotIdle,
    // A number of steps that is 0 or above 1,000,000.
    BadCount,
    // The steps since the load would pass 1,000,000,000.
    TooManySteps,
    // No such latch.
    NoSuchPlace,
    // A cell that is not writable.
    NoSuchCell,
}

impl Refusal {
    // The number by which hosts know the refusal.
    // Stays (1): a rule of the project: the format has numbers for refusals.
    pub fn number(self) -> u32
        ensures { result ≡ number_of self }
    {
        match self {
            Refusal::NotUnderWay => 10,
            Refusal::NotIdle => 11,
            Refusal::BadCount => 12,
            Refusal::TooManySteps => 13,
            Refusal::NoSuchPlace => 14,
            Refusal::NoSuchCell => 15,
        }
    }
}

impl From<NotWritable> for Refusal {
    ghost from_gives = { λ _ r. r ≡ refusal.NoSuchCell };

    fn from(_refused: NotWritable) -> Refusal {
        Refusal::NoSuchCell
    }
}
