// Doubling: each instruction over twins becomes a green and a blue one.
ghost use Rattle.std.specs.Prelude.{◌≡◌, ◌+◌, ◌*◌, ◌<◌, ◌≤◌};
ghost use Rattle.isa.specs.Registers.{registers};
ghost use Rattle.compiler.specs.Doubling.{dye, set_kind, twin_register};

use crate::line::{Single, Source};
use crate::twin::Twin;
use isa::instruction::Instruction;
use isa::kinds::{Colour, Kind, Register};

impl Twin {
    // Its register of a colour.
    pub fn register(self, colour: Colour) -> Register
        ensures value { result ≡ twin_register colour self }
        ensures low { result.number < 32 }
    {
        match colour {
            Colour::Green => Register {
                number: 2 * self.number,
            },
            Colour::Blue => Register {
                number: 2 * self.number + 1,
            },
        }
    }
}

// The kind of the instruction that sets a twin's register of one colour.
fn set(colour: Colour, to: Register, source: Source) -> Kind
    requires { to.number < 32 }
    ensures kind { result ≡ set_kind colour to source }
    ensures low { registers result ≤ 32 }
{
    match source {
        Source::Number(n) => Kind::Move(colour, to, n),
        Source::Copy(from) => Kind::Copy(to, from.register(colour)),
        Source::Operation(op, left, right) => {
            Kind::Arith(op, to, left.register(colour), right.register(colour))
        }
        Source::Cell(address) => Kind::Load(colour, to, address.register(colour)),
    }
}

// The kind of one colour's half of an instruction over twins.
fn half_kind(colour: Colour, single: Single) -> Kind
    ensures kind { result ≡ dye colour single }
    ensures low { registers result ≤ 32 }
{
    match single {
        Single::Set(twin, source) => set(colour, twin.register(colour), source),
        Single::Store(address, word) => {
            Kind::Store(colour, address.register(colour), word.register(colour))
        }
        Single::Jump(target) => Kind::Jump(colour, target.register(colour)),
        Single::Branch(condition, target) => {
            Kind::Branch(colour, condition.register(colour), target.register(colour))
        }
    }
}

// One colour's half of an instruction over twins.
pub fn half(colour: Colour, single: Single) -> Instruction
    ensures { result.kind ≡ dye colour single }
{
    Instruction {
        kind: half_kind(colour, single),
    }
}
