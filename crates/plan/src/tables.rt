ghost use Rattle.std.specs.Prelude.{◌≡◌, ◌≤◌, vec_len, vec_capacity};
ghost use Rattle.plan.specs.Tables.{Closed, Rooted, total, own as own_of, loop};

use crate::tree::{Node, Statement};

// A plan: the nodes of its expressions, its statements, how many instructions its statements need
// beside those of their nodes, and how many REPEATs it has.
#[derive(Drop)]
pub struct Plan {
    pub(crate) nodes: Vec<Node>,
    pub(crate) statements: Vec<Statement>,
    pub(crate) own: u32,
    pub(crate) repeats: u32,
    ghost room: { (8192 ≤ vec_capacity nodes) × (8192 ≤ vec_capacity statements) },
    ghost few: { (vec_len nodes ≤ 8192) × (vec_len statements ≤ 8192) },
    ghost closed: { Closed nodes.items },
    ghost rooted: { Rooted (vec_len nodes) statements.items },
    ghost owned: { own ≡ total own_of statements.items },
    ghost looped: { repeats ≡ total loop statements.items },
}
