// Why a text is not compiled: number, byte and the layer that found it.
ghost use Rattle.std.specs.Prelude.{◌≡◌};
ghost use Rattle.compiler.specs.declared.fault.CompileFault.TheVariants.{Read};
ghost use Rattle.compiler.specs.Faults.{number as number_of, place as place_of, layer as layer_of};

use plan::fault::{Layer, ReadFault};

#[derive(Clone, Copy, Debug, PartialEq, Eq)]
pub enum CompileFault {
    // The text has more bytes than allowed.
    LongText,
    // The output has fewer words than the largest module.
    ShortOutput,
    // What the reader, or the layer below it, found.
    Read(ReadFault),
    // The expression that begins at this byte is too wide.
    Wide(usize),
    // The plan needs too many instructions, or has too many REPEATs.
    Large,
}

impl From<ReadFault> for CompileFault {
    ghost from_gives = { λ e r. r ≡ Read e };

    fn from(e: ReadFault) -> CompileFault {
        CompileFault::Read(e)
    }
}

impl CompileFault {
    // The number by which hosts know the fault.
    // Stays (1): a rule of the project: hosts know a fault by its number.
    pub fn number(self) -> u8
        ensures { result ≡ number_of self }
    {
        match self {
            CompileFault::LongText => 1,
            CompileFault::ShortOutput => 2,
            CompileFault::Read(fault) => fault.number(),
            CompileFault::Wide(_) => 5,
            CompileFault::Large => 6,
        }
    }

    // The byte of the text at which it stands; 0 where none is named.
    pub fn place(self) -> usize
        ensures { result ≡ place_of self }
    {
        match self {
            CompileFault::Read(fault) => fault.place(),
            CompileFault::Wide(place) => place,
            CompileFault::LongText | CompileFault::ShortOutput | CompileFault::Large => 0,
        }
    }

    // The layer that found it.
    pub fn layer(self) -> Layer
        ensures { result ≡ layer_of self }
    {
        match self {
            CompileFault::Read(fault) => fault.layer(),
            _ => Layer::Builder,
        }
    }
}
