// What is known of a register, of a store to come, and of a jump under way.
use crate::node::Id;
use isa::kinds::Colour;

// An expression, and the colour whose copy computes its value.
#[derive(Clone, Copy)]
pub struct Noted {
    pub colour: Colour,
    pub expression: Id,
}

// What is known of a register: that it has an expression's value, or nothing.
pub type Note = Option<Noted>;

// A store that green has made and blue has not: it is pending.
// Stays (2): no plainer: these are entries of a table, the machine's pairs are words, and no crate below both has
// pairs.
#[derive(Clone, Copy, PartialEq)]
pub struct Pair {
    pub address: Id,
    pub word: Id,
}

// The jump that green has announced and blue has not made: none, to a place, or to a place if an
// expression is 0.
// Stays (1): a rule of the project: clear, jump and if are matched together with the instruction.
#[derive(Clone, Copy)]
pub enum Destination {
    Clear,
    Jump(u32),
    If(Id, u32),
}
