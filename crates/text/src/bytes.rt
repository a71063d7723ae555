// Texts cut before a byte, and the words of a text.
ghost use Rattle.std.specs.Prelude.{◌≡◌, ℕ, ◌<◌, ◌==◌, true, false, [], ◌∷◌, ◌++◌, length, slice_index, MatchOption};
ghost use Rattle.std.specs.List.{before_first, after_first};
ghost use Rattle.text.specs.Bytes.{white, words, numeric};

fn is_white(byte: u8) -> bool
    ensures { result ≡ white byte }
{
    matches!(byte, b' ' | b'\t'..=b'\r')
}

// A part of a text, and what stands behind it.
#[derive(Clone, Copy)]
pub struct Split<'a> {
    pub part: &'a [u8],
    pub rest: &'a [u8],
}

// What stands before the first byte that passes a test, and the rest from that byte on; none is left, where none passes.
pub(crate) fn cut<F: Fn(u8) -> bool>(text: &[u8], is_end: F) -> Split<'_>
    requires { F.IsAlwaysCallable is_end }
    ensures whole { text.now ≡ result.part.now ++ result.rest.now }
    ensures part { (k : ℕ) → k < length result.part.now → F.post is_end (slice_index result.part.now k) false }
    ensures end { 0 < length result.rest.now → F.post is_end (slice_index result.rest.now 0) true }
{
    let end = text
        .iter()
        .position(|byte| is_end(*byte))
        .unwrap_or(text.len());
    let (part, rest) = text.split_at(end);
    Split { part, rest }
}

// What stands before a comment.
pub fn said(line: &[u8]) -> &[u8]
    ensures { result.now ≡ before_first (λ b. b == 35) line.now }
{
    cut(line, |byte| byte == b'#').part
}

// The first word and what stands behind it, if there is a word.
pub fn first_word(text: &[u8]) -> Option<Split<'_>>
    ensures { MatchOption result (words text.now ≡ []) (λ s. words text.now ≡ s.part.now ∷ words s.rest.now) }
{
    let all = cut(text, |byte| !is_white(byte)).rest;
    let first = cut(all, is_white);
    (!first.part.is_empty()).then_some(first)
}

// The first line without its newline, and what stands behind that.
pub fn first_line(text: &[u8]) -> Split<'_>
    ensures part { result.part.now ≡ before_first (λ b. b == 10) text.now }
    ensures rest { result.rest.now ≡ after_first (λ b. b == 10) text.now }
{
    let line = cut(text, |byte| byte == b'\n');
    Split {
        part: line.part,
        rest: line.rest.get(1..).unwrap_or(&[]),
    }
}

// Whether a file holds a module's words, and no plan: its first byte that is not white space is a digit, which no
// plan begins with.
pub fn is_module(text: &[u8]) -> bool
    ensures { result ≡ numeric (words text.now) }
{
    first_word(text).is_some_and(|first| matches!(first.part, [b'0'..=b'9', ..]))
}
