ghost use Rattle.std.specs.Prelude.{◌≤◌, vec_len, vec_capacity};

use crate::line::Line;

// Lines of the largest module: each is doubled, and a halt stands behind them.
pub(crate) const LINES: usize = 511;

// The code of a plan as it is written: its lines so far, and the block that starts before the next
// one, if one does.
#[derive(Drop)]
pub struct Lines {
    pub(crate) lines: Vec<Line>,
    pub(crate) entry: Option<u8>,
    ghost room: { 512 ≤ vec_capacity lines },
    ghost few: { vec_len lines ≤ 511 },
}
