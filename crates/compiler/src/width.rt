// How many twins an expression keeps values in at once.
ghost use Rattle.std.specs.Prelude.{◌≡◌, ℕ, ◌+◌, ◌<◌, ◌≤◌, length, vec_len, vec_capacity, slice_index};
ghost use Rattle.plan.specs.Tables.{reach};
ghost use Rattle.compiler.specs.Widths.{width_by, Measured};

use plan::tables::Plan;
use plan::tree::Node;

// The width of a node, those of the earlier ones being known: 1 for a number or a variable, its
// address's for a cell, and for an operation the larger of its left side's and one more than its
// right side's.
fn width(widths: &[u32], node: Node) -> u32
    requires reach { reach node ≤ length widths.now }
    requires low { (k : ℕ) → slice_index widths.now k ≤ length widths.now }
    requires few { length widths.now ≤ 8192 }
    ensures value { result ≡ width_by widths.now node }
    ensures low { result ≤ length widths.now + 1 }
{
    match node {
        Node::Number(_) | Node::Variable(_) => 1,
        Node::Cell(address) => widths[address.index],
        Node::Binary(_, left, right) => widths[left.index].max(widths[right.index] + 1),
    }
}

// The width of each node of a plan.
// Stays (6): a rule of the project: room for the widths is made once, by the compiler's constructor.
// Stays (5): no plainer: `first_wide` and `widest` alone ask that each node has a width, and are called once
// each; a struct that lends plan and widths would be one more type in the place of one clause.
pub(crate) fn measure(widths: &mut Vec<u32>, plan: &Plan)
    requires { 8192 ≤ vec_capacity widths.old }
    ensures len { vec_len widths.new ≡ vec_len plan.now.nodes }
    ensures capacity { vec_capacity widths.new ≡ vec_capacity widths.old }
    ensures measured { Measured plan.now.nodes.items widths.new.items }
{
    widths.clear();
    for &node in plan.nodes() {
        let w = width(widths.as_slice(), node);
        widths.push_reserved(w);
    }
}
