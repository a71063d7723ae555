// The words of an instruction.
ghost use Rattle.std.specs.Prelude.{◌≡◌, ◌+◌, ◌*◌, ◌^◌, ◌<◌};
ghost use Rattle.isa.specs.Words.{operation_of, packed, first_word, second_word, kind_of};

use crate::instruction::Instruction;
use crate::kinds::{Arithmetic, Colour, Kind, Register};

impl Kind {
    // The number of the operation.
    // Stays (1): the format's numbers are a rule of the project, and `as` takes no enum whose variants hold values.
    pub fn operation(self) -> u8
        ensures value { result ≡ operation_of self }
        ensures low { result < 16 }
    {
        match self {
            Kind::Move(Colour::Green, _, _) => 0,
            Kind::Move(Colour::Blue, _, _) => 1,
            Kind::Copy(_, _) => 2,
            Kind::Arith(Arithmetic::Add, _, _, _) => 3,
            Kind::Arith(Arithmetic::Sub, _, _, _) => 4,
            Kind::Arith(Arithmetic::Mul, _, _, _) => 5,
            Kind::Arith(Arithmetic::Lt, _, _, _) => 6,
            Kind::Load(Colour::Green, _, _) => 7,
            Kind::Load(Colour::Blue, _, _) => 8,
            Kind::Store(Colour::Green, _, _) => 9,
            Kind::Store(Colour::Blue, _, _) => 10,
            Kind::Jump(Colour::Green, _) => 11,
            Kind::Jump(Colour::Blue, _) => 12,
            Kind::Branch(Colour::Green, _, _) => 13,
            Kind::Branch(Colour::Blue, _, _) => 14,
            Kind::Halt => 15,
        }
    }
}

// One word of an operation and three fields.
fn pack(op: u8, a: u8, b: u8, c: u8) -> u32
    requires { op < 16 }
    ensures { result ≡ packed op a b c }
{
    op as u32 * 0x100_0000 + a as u32 * 0x1_0000 + b as u32 * 0x100 + c as u32
}

// The two words of an instruction; a field that it does not use is 0.
// Stays (4): no plainer: `into` would not say that the two numbers are words.
pub fn encode(instruction: Instruction) -> (u32, u32)
    ensures value { result ≡ (first_word instruction.kind, second_word instruction.kind) }
    ensures back { kind_of result.0 result.1 ≡ instruction.kind }
{
    let kind = instruction.kind;
    let op = kind.operation();
    match kind {
        Kind::Move(_, a, n) => (pack(op, a.number, 0, 0), n),
        Kind::Copy(a, b) => (pack(op, a.number, b.number, 0), 0),
        Kind::Arith(_, a, b, c) => (pack(op, a.number, b.number, c.number), 0),
        Kind::Load(_, a, b) => (pack(op, a.number, b.number, 0), 0),
        Kind::Store(_, a, b) => (pack(op, a.number, b.number, 0), 0),
        Kind::Jump(_, a) => (pack(op, a.number, 0, 0), 0),
        Kind::Branch(_, a, b) => (pack(op, a.number, b.number, 0), 0),
        Kind::Halt => (pack(op, 0, 0, 0), 0),
    }
}
