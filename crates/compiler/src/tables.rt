ghost use Rattle.std.specs.Prelude.{◌≡◌, ◌≤◌, vec_len, vec_capacity};

use crate::half::Half;
use crate::lines::Lines;
use plan::reader::Reader;

// A compiler with all its tables, which are made once: for the text, the widths of the nodes, the
// nodes of which a part of the code is still to come, and the code over twins; and the width of the
// widest expression of the plan that was compiled last.
#[derive(Drop)]
pub struct Compiler {
    pub(crate) reader: Reader,
    // Stays (6): no plainer: the nodes beside the widths are the reader's table, which knows no widths.
    pub(crate) widths: Vec<u32>,
    // Stays (6): a rule of the project: the stack stands over slots that are lent to it, and room is made once.
    pub(crate) halves: Vec<Half>,
    pub(crate) lines: Lines,
    pub(crate) widest: u32,
    ghost width_room: { 8192 ≤ vec_capacity widths },
    ghost half_room: { vec_len halves ≡ 1024 },
}
