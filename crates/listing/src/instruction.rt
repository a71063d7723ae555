// An instruction as text.
ghost use Rattle.std.specs.Prelude.{◌≡◌, Some};
ghost use Rattle.listing.specs.Lines.{mnemonic as mnemonic_of, instruction};

use isa::kinds::{Arithmetic, Colour, Kind, Register};
use std::fmt;

// The name of an instruction's operation, four letters wide.
// Stays (4): no plainer: the words belong to the listing; `Listed` shows the whole line, and this is its first word.
pub fn mnemonic(kind: Kind) -> &'static str
    ensures { result.now ≡ mnemonic_of kind }
{
    match kind {
        Kind::Move(Colour::Green, _, _) => "movG",
        Kind::Move(Colour::Blue, _, _) => "movB",
        Kind::Copy(_, _) => "cpy ",
        Kind::Arith(Arithmetic::Add, _, _, _) => "add ",
        Kind::Arith(Arithmetic::Sub, _, _, _) => "sub ",
        Kind::Arith(Arithmetic::Mul, _, _, _) => "mul ",
        Kind::Arith(Arithmetic::Lt, _, _, _) => "lt  ",
        Kind::Load(Colour::Green, _, _) => "ldG ",
        Kind::Load(Colour::Blue, _, _) => "ldB ",
        Kind::Store(Colour::Green, _, _) => "stG ",
        Kind::Store(Colour::Blue, _, _) => "stB ",
        Kind::Jump(Colour::Green, _) => "jmpG",
        Kind::Jump(Colour::Blue, _) => "jmpB",
        Kind::Branch(Colour::Green, _, _) => "bzG ",
        Kind::Branch(Colour::Blue, _, _) => "bzB ",
        Kind::Halt => "halt",
    }
}

// An instruction's line: its operation, registers and number.
#[derive(Clone, Copy)]
pub struct Listed {
    pub kind: Kind,
}

impl fmt::Display for Listed {
    ghost output = { λ x. Some (instruction x.kind) };

    fn fmt<W: fmt::Write>(&self, f: &mut fmt::Formatter<W>) -> fmt::Result {
        let name = mnemonic(self.kind);
        match self.kind {
            Kind::Move(_, a, n) => write!(f, "{name} r{} {n}", a.number),
            Kind::Copy(a, b) | Kind::Load(_, a, b) | Kind::Store(_, a, b) | Kind::Branch(_, a, b) =>
                write!(f, "{name} r{} r{}", a.number, b.number),
            Kind::Arith(_, a, b, c) => {
                write!(f, "{name} r{} r{} r{}", a.number, b.number, c.number)
            }
            Kind::Jump(_, a) => write!(f, "{name} r{}", a.number),
            Kind::Halt => write!(f, "{name}"),
        }
    }
}
