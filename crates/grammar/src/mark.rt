// The marks of a text: its words, numbers and signs.
use crate::variable::Variable;
use isa::kinds::Arithmetic;

#[derive(Clone, Copy, Debug, PartialEq, Eq)]
pub enum Bracket {
    Round,
    Square,
}

// A mark is one word, number or sign; the end of a line is one too.
#[derive(Clone, Copy, Debug, PartialEq, Eq)]
pub enum Mark {
    Let,
    Put,
    Repeat,
    End,
    LineEnd,
    Number(u32),
    Variable(Variable),
    Operator(Arithmetic),
    Open(Bracket),
    Close(Bracket),
    Comma,
    Equals,
}

// A mark and the byte at which it begins.
#[derive(Clone, Copy, Debug, PartialEq, Eq)]
pub struct Placed {
    pub mark: Mark,
    pub place: usize,
}
