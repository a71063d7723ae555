ghost use Rattle.std.specs.Prelude.{◌≡◌, ◌+◌, ◌-◌, ◌<◌};

use grammar::variable::Variable;

// A pair of registers that hold the two copies of one word: twin i is green register 2i and blue
// register 2i + 1.
#[derive(Clone, Copy)]
pub struct Twin {
    pub number: u8,
    ghost low: { number < 16 },
}

// Twins 0 to 5 are the variables A to F, 6 to 9 the counters of the open REPEATs, and 10 to 15 hold
// values in between.
pub const COUNTERS: u8 = 6;

pub const VALUES: u8 = 10;

// The last twin.
const LAST: u8 = 15;

impl From<Variable> for Twin {
    ghost from_gives = { λ v t. t.number ≡ v.number };

    fn from(variable: Variable) -> Twin {
        Twin {
            number: variable.number,
        }
    }
}

impl Twin {
    // The one behind it; the last twin is followed by itself.
    pub(crate) fn behind(self) -> Twin
        ensures { self.number < 15 → result.number ≡ self.number + 1 }
    {
        Twin {
            number: (self.number + 1).min(LAST),
        }
    }

    // The one before it; before the first one stands itself.
    pub(crate) fn before(self) -> Twin
        ensures { result.number ≡ self.number - 1 }
    {
        Twin {
            number: self.number.saturating_sub(1),
        }
    }
}
