// From the bytes of one mark to the mark.
ghost use Rattle.std.specs.Prelude.{◌≡◌, ◌+◌, ◌-◌, ◌*◌, ◌<◌, ◌≤◌, MatchOption};
ghost use Rattle.marks.specs.Finding.{Whole};
ghost use Rattle.marks.specs.Spelling.{kind_of, goes_on, value, Spells, NoMark};

use grammar::mark::{Bracket, Mark};
use grammar::variable::Variable;
use isa::kinds::Arithmetic;

// What the bytes of a mark are. Words and numbers are longest runs of capitals and digits.
#[derive(Clone, Copy, PartialEq, Eq)]
pub enum Kind {
    Word,
    Number,
    Sign,
}

impl Kind {
    // The kind of mark that a byte begins.
    pub(crate) fn of(byte: u8) -> Kind
        ensures { result ≡ kind_of byte }
    {
        match byte {
            b'A'..=b'Z' => Kind::Word,
            b'0'..=b'9' => Kind::Number,
            _ => Kind::Sign,
        }
    }

    // Whether a word or a number goes on with this byte.
    pub(crate) fn goes_on(self, byte: u8) -> bool
        ensures { result ≡ goes_on self byte }
    {
        matches!(
            (self, Kind::of(byte)),
            (Kind::Word, Kind::Word) | (Kind::Number, Kind::Number)
        )
    }
}

// The value of digits with one more behind them, if it is a word of 32 bits.
fn appended(value: u32, digit: u8) -> Option<u32>
    ensures { MatchOption result (4294967295 < value * 10 + (digit - 48)) (λ n. value * 10 + (digit - 48) ≡ n) }
{
    value
        .checked_mul(10)?
        .checked_add(u32::from(digit.saturating_sub(b'0')))
}

// The number that digits are, if it is a word of 32 bits.
// Stays (4): tried `parse` of the library: it reads text, so the digits were tested twice more, and a text of numbers
// took up to 1.4 times as long to read.
fn number(digits: &[u8]) -> Option<u32>
    ensures { MatchOption result (4294967295 < value 0 digits.now) (λ n. (value 0 digits.now ≡ n) × (n ≤ 4294967295)) }
{
    let mut value = 0u32;
    for digit in digits {
        value = appended(value, *digit)?;
    }
    Some(value)
}

// The mark that the bytes are, if they are one. No number has a leading zero that says nothing.
pub(crate) fn spelled(bytes: &[u8]) -> Option<Mark>
    requires { Whole bytes.now }
    ensures { MatchOption result (NoMark bytes.now) (Spells bytes.now) }
{
    match bytes {
        b"LET" => Some(Mark::Let),
        b"PUT" => Some(Mark::Put),
        b"REPEAT" => Some(Mark::Repeat),
        b"END" => Some(Mark::End),
        b"\n" => Some(Mark::LineEnd),
        b"+" => Some(Mark::Operator(Arithmetic::Add)),
        b"-" => Some(Mark::Operator(Arithmetic::Sub)),
        b"*" => Some(Mark::Operator(Arithmetic::Mul)),
        b"<" => Some(Mark::Operator(Arithmetic::Lt)),
        b"(" => Some(Mark::Open(Bracket::Round)),
        b")" => Some(Mark::Close(Bracket::Round)),
        b"[" => Some(Mark::Open(Bracket::Square)),
        b"]" => Some(Mark::Close(Bracket::Square)),
        b"," => Some(Mark::Comma),
        b"=" => Some(Mark::Equals),
        [letter @ b'A'..=b'F'] => Some(Mark::Variable(Variable {
            number: letter - b'A',
        })),
        [b'0', _, ..] => None,
        [b'0'..=b'9', ..] => Some(Mark::Number(number(bytes)?)),
        _ => None,
    }
}
