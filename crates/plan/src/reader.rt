// A reader of plans: where it stands in the marks, and what it has made of them.
ghost use Rattle.std.specs.Prelude.{◌+◌, ◌≤◌, length, drop, vec_len};

use crate::tables::Plan;
use marks::text::Marks;

// Reads texts into its own tables, which are made once. They have a place for a node and for a
// statement for each mark that is left.
// Stays (6): no plainer: an iterator over its own marks would borrow the reader from itself, so `at` is a
// number.
#[derive(Drop)]
pub struct Reader {
    pub(crate) marks: Marks,
    pub(crate) at: usize,
    pub(crate) plan: Plan,
    ghost node_room: { vec_len plan.nodes + length (drop at marks.placed.items) ≤ 8192 },
    ghost statement_room: { vec_len plan.statements + length (drop at marks.placed.items) ≤ 8192 },
}
