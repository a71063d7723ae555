// What can be wrong with a text: the number, the byte and the layer that found it.
ghost use Rattle.std.specs.Prelude.{◌≡◌, Some};
ghost use Rattle.plan.specs.declared.fault.ReadFault.TheVariants.{Mark};
ghost use Rattle.plan.specs.Faults.{number, place, layer, layer_name};

pub use marks::fault::MarkFault;
use std::fmt;

// The layer of the compiler that found a fault.
#[derive(Clone, Copy, Debug, PartialEq, Eq)]
pub enum Layer {
    Marks,
    Reader,
    Builder,
}

impl fmt::Display for Layer {
    ghost output = { λ l. Some (layer_name l) };

    fn fmt<W: fmt::Write>(&self, f: &mut fmt::Formatter<W>) -> fmt::Result {
        match self {
            Layer::Marks => write!(f, "marks"),
            Layer::Reader => write!(f, "reader"),
            Layer::Builder => write!(f, "builder"),
        }
    }
}

#[derive(Clone, Copy, Debug, PartialEq, Eq)]
pub enum ReadFault {
    Mark(MarkFault),
    // No plan goes on with the mark at this byte, or ends there.
    Grammar(usize),
    // One bracket or one REPEAT too many is open from this byte on.
    Nesting(usize),
}

impl From<MarkFault> for ReadFault {
    ghost from_gives = { λ e r. r ≡ Mark e };

    fn from(e: MarkFault) -> ReadFault {
        ReadFault::Mark(e)
    }
}

impl ReadFault {
    // The number by which hosts know the fault.
    // Stays (1): a rule of the project: hosts know a fault by its number.
    pub fn number(self) -> u8
        ensures { result ≡ number self }
    {
        match self {
            ReadFault::Mark(_) => 3,
            ReadFault::Grammar(_) => 4,
            ReadFault::Nesting(_) => 5,
        }
    }

    // The byte of the text at which it stands.
    pub fn place(self) -> usize
        ensures { result ≡ place self }
    {
        match self {
            ReadFault::Mark(MarkFault::Strange(at))
            | ReadFault::Grammar(at)
            | ReadFault::Nesting(at) => at,
        }
    }

    // The layer that found it.
    pub fn layer(self) -> Layer
        ensures { result ≡ layer self }
    {
        match self {
            ReadFault::Mark(_) => Layer::Marks,
            ReadFault::Grammar(_) | ReadFault::Nesting(_) => Layer::Reader,
        }
    }
}
