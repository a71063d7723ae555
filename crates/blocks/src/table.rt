// The table of a block's expressions: no tree stands twice in it.
ghost use Rattle.std.specs.Prelude.{◌≤◌, vec_capacity};
ghost use Rattle.blocks.specs.Trees.{Closed, Once, trees, room};

use crate::node::Node;

#[derive(Drop)]
pub struct Table {
    nodes: Vec<Node>,
    ghost room: { room ≤ vec_capacity nodes },
    ghost closed: { Closed nodes.items },
    ghost once: { Once (trees nodes.items) },
}

mod entries;
