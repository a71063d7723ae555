// An instruction as two words: op × 2^24 + a × 2^16 + b × 2^8 + c, and imm.
ghost use Rattle.std.specs.Prelude.{◌≡◌, ℕ, ◌+◌, ◌*◌, ◌/◌, ◌%◌, ◌^◌, ◌<◌, ◌≤◌, true, if◌then◌else◌};
ghost use Rattle.isa.specs.Words.{first_word, second_word, kind_of, kind_by, well_formed, mask, fits, named};

use crate::instruction::Instruction;
use crate::kinds::{Arithmetic, Colour, Kind, Register};

// The fields of an instruction, as bits of a mask.
const A: u8 = 8;

const B: u8 = 4;

const C: u8 = 2;

const IMM: u8 = 1;

// Which fields each operation uses, by its number.
// Stays (6): a rule of the project: one constant table of masks, which decoding and the test both read.
const FIELDS: [u8; 16] = [
    A | IMM,
    A | IMM,
    A | B,
    A | B | C,
    A | B | C,
    A | B | C,
    A | B | C,
    A | B,
    A | B,
    A | B,
    A | B,
    A,
    A,
    A | B,
    A | B,
    0,
];

// The fields that operation `op` uses.
fn fields(op: u8) -> u8
    requires { op < 16 }
    ensures { result ≡ mask op }
{
    FIELDS[op as usize]
}

// A register's field is its number where it is used, and 0 where it is not.
// Stays (1): no plainer: whether it is used is no Option of the field here, since one that is not used is judged too;
// the definitions of both readings below are over the same test.
fn is_fit(used: bool, field: u32) -> bool
    ensures { result ≡ fits used field }
{
    if used { field < 32 } else { field == 0 }
}

// Whether the words are an instruction: an operation that there is, and in each field what it allows.
pub fn is_well_formed(first: u32, second: u32) -> bool
    ensures { result ≡ well_formed first second }
{
    let op = first / 0x100_0000;
    if op >= 16 {
        return false;
    }
    let used = fields(op as u8);
    is_fit(used & A != 0, first / 0x1_0000 % 0x100)
        && is_fit(used & B != 0, first / 0x100 % 0x100)
        && is_fit(used & C != 0, first % 0x100)
        && (used & IMM != 0 || second == 0)
}

// The register of a field that is used; register 0 stands for one that is not.
fn register(used: bool, field: u32) -> Register
    ensures value { result ≡ named used field }
    ensures low { result.number < 32 }
{
    if used {
        Register {
            number: (field % 32) as u8,
        }
    } else {
        Register { number: 0 }
    }
}

// The number of a field that is used; 0 stands for one that is not.
fn immediate(used: bool, second: u32) -> u32
    ensures { result ≡ (if used then second else 0) }
{
    if used { second } else { 0 }
}

// The instruction with this operation and these operands.
// Stays (1): a rule of the project: the format has a number for each operation.
fn assemble(op: u8, a: Register, b: Register, c: Register, imm: u32) -> Instruction
    requires a { a.number < 32 }
    requires b { b.number < 32 }
    requires c { c.number < 32 }
    ensures { result.kind ≡ kind_by op a b c imm }
{
    let kind = match op {
        0 => Kind::Move(Colour::Green, a, imm),
        1 => Kind::Move(Colour::Blue, a, imm),
        2 => Kind::Copy(a, b),
        3 => Kind::Arith(Arithmetic::Add, a, b, c),
        4 => Kind::Arith(Arithmetic::Sub, a, b, c),
        5 => Kind::Arith(Arithmetic::Mul, a, b, c),
        6 => Kind::Arith(Arithmetic::Lt, a, b, c),
        7 => Kind::Load(Colour::Green, a, b),
        8 => Kind::Load(Colour::Blue, a, b),
        9 => Kind::Store(Colour::Green, a, b),
        10 => Kind::Store(Colour::Blue, a, b),
        11 => Kind::Jump(Colour::Green, a),
        12 => Kind::Jump(Colour::Blue, a),
        13 => Kind::Branch(Colour::Green, a, b),
        14 => Kind::Branch(Colour::Blue, a, b),
        _ => Kind::Halt,
    };
    Instruction { kind }
}

// The instruction that the words are. Words that are not well formed are read by the low bits of
// their fields; no layout with such words is accepted.
// Stays (4): no plainer: this cannot fail, so it is no `TryFrom`, and a `From` is expected to lose nothing.
pub fn decode(first: u32, second: u32) -> Instruction
    ensures value { result.kind ≡ kind_of first second }
    ensures back { well_formed first second ≡ true → (first_word result.kind ≡ first) × (second_word result.kind ≡ second) }
{
    let op = (first / 0x100_0000 % 16) as u8;
    let used = fields(op);
    let a = register(used & A != 0, first / 0x1_0000 % 0x100);
    let b = register(used & B != 0, first / 0x100 % 0x100);
    let c = register(used & C != 0, first % 0x100);
    let imm = immediate(used & IMM != 0, second);
    assemble(op, a, b, c, imm)
}
