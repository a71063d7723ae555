// Registers, colours, operations and what an instruction does.
ghost use Rattle.std.specs.Prelude.{◌≡◌};
ghost use Rattle.isa.specs.Words.{alu};

// The two copies of a computation. A store leaves the machine only when both agree.
#[derive(Clone, Copy, Debug, PartialEq, Eq)]
pub enum Colour {
    Green,
    Blue,
}

// Operations on two words, modulo 2^32; `Lt` is 1 where the left word is the smaller, else 0.
#[derive(Clone, Copy, Debug, PartialEq, Eq)]
pub enum Arithmetic {
    Add,
    Sub,
    Mul,
    Lt,
}

impl Arithmetic {
    pub fn apply(self, left: u32, right: u32) -> u32
        ensures { result ≡ alu self left right }
    {
        match self {
            Arithmetic::Add => left.wrapping_add(right),
            Arithmetic::Sub => left.wrapping_sub(right),
            Arithmetic::Mul => left.wrapping_mul(right),
            Arithmetic::Lt => (left < right) as u32,
        }
    }
}

// A register by its number. An `Instruction` names only registers 0 to 31.
#[derive(Clone, Copy, Debug, PartialEq, Eq)]
pub struct Register {
    pub number: u8,
}

// What an instruction does. The first register is the one that is set, if one is.
#[derive(Clone, Copy, Debug, PartialEq, Eq)]
pub enum Kind {
    // movG, movB: set a register to a number.
    Move(Colour, Register, u32),
    // cpy: set a register from another one.
    Copy(Register, Register),
    // add, sub, mul, lt.
    Arith(Arithmetic, Register, Register, Register),
    // ldG, ldB: set a register to the word at the address in the other one.
    Load(Colour, Register, Register),
    // stG, stB: store at the address in the first register the word in the second.
    Store(Colour, Register, Register),
    // jmpG, jmpB: go to the instruction whose number is in the register.
    Jump(Colour, Register),
    // bzG, bzB: go to the instruction whose number is in the second register if the first is 0.
    Branch(Colour, Register, Register),
    Halt,
}
