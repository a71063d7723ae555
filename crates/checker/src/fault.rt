// Why words do not pass the check.
ghost use Rattle.std.specs.Prelude.{◌≡◌};
ghost use Rattle.checker.specs.Faults.{number_of, place_of, lifted};

use isa::layout::LayoutFault;

// Stays (4): no plainer: with a fault of the layout inside, each match on a fault would be two deep.
#[derive(Clone, Copy, Debug, PartialEq, Eq)]
pub enum CheckFault {
    // Length, counts, operations or fields.
    Malformed,
    // The first block with a bad start or a bad card.
    Block(u32),
    // The first instruction whose rule is broken.
    Rule(u32),
}

impl From<LayoutFault> for CheckFault {
    ghost from_gives = { λ e r. r ≡ lifted e };

    fn from(fault: LayoutFault) -> CheckFault {
        match fault {
            LayoutFault::Malformed => CheckFault::Malformed,
            LayoutFault::Block(block) => CheckFault::Block(block),
        }
    }
}

impl CheckFault {
    // The fault's number.
    // Stays (1): a rule of the project: hosts know a fault by its number.
    pub fn number(self) -> u32
        ensures { result ≡ number_of self }
    {
        match self {
            CheckFault::Malformed => 7,
            CheckFault::Block(_) => 8,
            CheckFault::Rule(_) => 9,
        }
    }

    // The fault's place: a block or an instruction, and 0 where none is named.
    pub fn place(self) -> u32
        ensures { result ≡ place_of self }
    {
        match self {
            CheckFault::Malformed => 0,
            CheckFault::Block(block) => block,
            CheckFault::Rule(instruction) => instruction,
        }
    }
}
