// A register of a card as text.
ghost use Rattle.std.specs.Prelude.{◌≡◌, Some};
ghost use Rattle.listing.specs.Lines.{colour as colour_of, entry};

use isa::card::Slot;
use isa::kinds::Colour;
use std::fmt;

// The name of a colour.
// Stays (4): no plainer: the words belong to the listing; `CardEntry` shows the whole of a register.
pub fn colour_name(colour: Colour) -> &'static str
    ensures { result.now ≡ colour_of colour }
{
    match colour {
        Colour::Green => "green",
        Colour::Blue => "blue",
    }
}

// What a card says of a register.
#[derive(Clone, Copy)]
pub struct CardEntry {
    pub register: u8,
    pub slot: Slot,
}

impl fmt::Display for CardEntry {
    ghost output = { λ x. Some (entry x.register x.slot) };

    fn fmt<W: fmt::Write>(&self, f: &mut fmt::Formatter<W>) -> fmt::Result {
        match self.slot {
            None => Ok(()),
            Some((colour, v)) => {
                let register = self.register;
                let colour = colour_name(colour);
                write!(f, " r{register}={colour} v{}", v.number)
            }
        }
    }
}
