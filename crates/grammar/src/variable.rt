ghost use Rattle.std.specs.Prelude.{◌<◌};

// One of the six variables: A is 0, F is 5.
#[derive(Clone, Copy, Debug, PartialEq, Eq)]
pub struct Variable {
    pub number: u8,
    ghost low: { number < 6 },
}
