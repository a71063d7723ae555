// A block's card: what it says of each register.
ghost use Rattle.std.specs.Prelude.{◌≡◌, ◌<◌, length};

use crate::kinds::Colour;

// One of the 32 variables of a card. A variable stands for a word that is not known.
#[derive(Clone, Copy)]
pub struct Variable {
    pub number: u8,
    ghost low: { number < 32 },
}

// What a card says of a register: its colour and the variable whose word it holds, or nothing.
pub type Slot = Option<(Colour, Variable)>;

// A block: its first instruction, and its card, register 0 first.
#[derive(Clone, Copy)]
pub struct Block {
    pub start: u32,
    pub card: [Slot; 32],
    ghost full: { length card ≡ 32 },
}
