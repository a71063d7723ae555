// Numbers as text.
ghost use Rattle.std.specs.Prelude.{◌≡◌, ◌+◌, ◌*◌, ◌-◌, ◌^◌, ◌≤◌};
ghost use Rattle.text.specs.Numbers.{fitting, numeral, word as word_of, wide as wide_of};

// The value of digits with one more behind them, in 64 bits.
fn appended(value: u64, radix: u32, digit: u32) -> Option<u64>
    ensures { result ≡ fitting (2 ^ 64 - 1) (value * radix + digit) }
{
    value
        .checked_mul(u64::from(radix))?
        .checked_add(u64::from(digit))
}

// The value of digits, in 64 bits; None for other bytes, and for none.
// Stays (4): no plainer: the library's from_str_radix takes a sign before the digits, and a number here has none.
fn digits(text: &[u8], radix: u32) -> Option<u64>
    requires low { 2 ≤ radix }
    requires high { radix ≤ 36 }
    ensures { result ≡ numeral (2 ^ 64 - 1) radix text.now }
{
    if text.is_empty() {
        return None;
    }
    let mut value = 0u64;
    for byte in text {
        let digit = char::from(*byte).to_digit(radix)?;
        value = appended(value, radix, digit)?;
    }
    Some(value)
}

// A number of 64 bits, decimal or hexadecimal behind 0x.
pub fn wide(text: &[u8]) -> Option<u64>
    ensures { result ≡ wide_of text.now }
{
    match text {
        [b'0', b'x', rest @ ..] => digits(rest, 16),
        _ => digits(text, 10),
    }
}

// A number of 32 bits.
pub fn word(text: &[u8]) -> Option<u32>
    ensures { result ≡ word_of text.now }
{
    u32::try_from(wide(text)?).ok()
}
