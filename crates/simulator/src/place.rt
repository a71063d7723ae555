// The places that a strike can hit: each is one latch.
ghost use Rattle.std.specs.Prelude.{◌≡◌, Some, None, MatchResult};
ghost use Rattle.simulator.specs.Places.{Low, place_of};
ghost use Rattle.simulator.specs.declared.refusal.Refusal.TheVariants as refusal;

use crate::refusal::Refusal;

#[derive(Clone, Copy, Debug, PartialEq, Eq)]
pub enum Place {
    Register(u8),
    CounterGreen,
    CounterBlue,
    Destination,
    // The address of a queued pair, the oldest being 0.
    PairAddress(u8),
    // Its word.
    PairWord(u8),
}

// The place with this number.
impl TryFrom<u32> for Place {
    type Error = Refusal;

    ghost try_from_gives = { λ number r. MatchResult r (λ p. (place_of number ≡ Some p) × Low p) (λ e. (place_of number ≡ None) × (e ≡ refusal.NoSuchPlace)) };

    fn try_from(number: u32) -> Result<Place, Refusal> {
        match number {
            0..=31 => Ok(Place::Register(number as u8)),
            32 => Ok(Place::CounterGreen),
            33 => Ok(Place::CounterBlue),
            34 => Ok(Place::Destination),
            35..=50 => Ok(Place::PairAddress((number - 35) as u8)),
            51..=66 => Ok(Place::PairWord((number - 51) as u8)),
            _ => Err(Refusal::NoSuchPlace),
        }
    }
}
