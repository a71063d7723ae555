// Where a byte of a text stands.
ghost use Rattle.std.specs.Prelude.{◌≡◌, ◌+◌, ◌-◌, ◌^◌, ◌≤◌, min, length, take};
ghost use Rattle.text.specs.Places.{newlines, since, line_at};

use crate::bytes::cut;

// A line and a column, both from 1.
#[derive(Clone, Copy)]
pub struct Spot {
    pub line: usize,
    pub column: usize,
}

// How many bytes are newlines.
fn newline_count(bytes: &[u8]) -> usize
    ensures { result ≡ newlines bytes.now }
{
    bytes.iter().filter(|byte| **byte == b'\n').count()
}

// How many bytes stand behind the last newline.
fn open_length(bytes: &[u8]) -> usize
    ensures count { result ≡ since bytes.now }
    ensures within { result ≤ length bytes.now }
{
    bytes
        .iter()
        .rev()
        .take_while(|byte| **byte != b'\n')
        .count()
}

// The line and the column of a byte; past the end, those behind the last byte.
pub fn locate(text: &[u8], at: usize) -> Spot
    ensures line { result.line ≡ min (newlines (take at text.now) + 1) (2 ^ 64 - 1) }
    ensures column { result.column ≡ min (since (take at text.now) + 1) (2 ^ 64 - 1) }
{
    let before = text.get(..at).unwrap_or(text);
    Spot {
        line: newline_count(before).saturating_add(1),
        column: open_length(before).saturating_add(1),
    }
}

// The line in which a byte stands, without its newline.
pub fn line_at(text: &[u8], at: usize) -> &[u8]
    ensures { result.now ≡ line_at text.now at }
{
    let before = text.get(..at).unwrap_or(text);
    let begin = before.len() - open_length(before);
    cut(&text[begin..], |byte| byte == b'\n').part
}
