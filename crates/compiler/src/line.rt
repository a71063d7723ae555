// Code over twin registers.
use crate::twin::Twin;
use isa::kinds::Arithmetic;

// What a twin is set to.
#[derive(Clone, Copy)]
pub enum Source {
    Number(u32),
    Copy(Twin),
    Operation(Arithmetic, Twin, Twin),
    // The cell at the twin's value.
    Cell(Twin),
}

// One instruction over twins.
#[derive(Clone, Copy)]
pub enum Single {
    Set(Twin, Source),
    // Stores at the address in the first twin the word in the second.
    Store(Twin, Twin),
    // Goes to the instruction whose number is in the twin.
    Jump(Twin),
    // The same with the second twin, if the first one is 0.
    Branch(Twin, Twin),
}

#[derive(Clone, Copy)]
pub struct Line {
    // The block that starts before the instruction, if one does: its card gives the first so many
    // twins a variable each.
    pub entry: Option<u8>,
    pub single: Single,
}
