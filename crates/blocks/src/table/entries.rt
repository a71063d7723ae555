// Looking a node up, and adding it where it is new.
ghost use Rattle.std.specs.Prelude.{◌≡◌, ℕ, ◌+◌, ◌<◌, ◌≤◌, [], length, IfOk, vec_len, MatchOption, ◌≢◌, slice_index_or};
ghost use Rattle.rules.specs.Expressions.{num_of, same?};
ghost use Rattle.blocks.specs.Trees.{room, trees, tree_of, at, reach, Kept, numeral};

use super::Table;
use crate::node::{Id, Node};
use isa::limits::{INSTRUCTIONS, REGISTERS};
use std::alloc::{AllocError, Global};

// Entries for a card's registers, and one for each instruction.
const ROOM: usize = REGISTERS as usize + INSTRUCTIONS as usize;

impl Table {
    // An empty table, with room for every expression of a block.
    pub(crate) fn new(heap: Global) -> Result<Table, AllocError>
        ensures { IfOk result (λ t. t.nodes.items ≡ []) }
    {
        let nodes = Vec::with_capacity(heap, ROOM)?;
        Ok(Table { nodes })
    }

    pub(crate) fn clear(&mut self)
        ensures { self.new.nodes.items ≡ [] }
    {
        self.nodes.clear();
    }

    // The entry that equals the node, sought from the front.
    // Stays (6): a rule of the project: to insert into a map can fail for want of memory, and a call that judges
    // may not.
    fn find(&self, node: Node) -> Option<Id>
        ensures { MatchOption result ((k : ℕ) → k < length self.now.nodes.items → slice_index_or self.now.nodes.items k node ≢ node) (λ x. (x.index < length self.now.nodes.items) × (slice_index_or self.now.nodes.items x.index node ≡ node)) }
    {
        self.nodes
            .iter()
            .position(|n| *n == node)
            .map(|index| Id { index })
    }

    // The entry with the node's tree: the one that has it, or a new one.
    // Stays (4): the new form is no plainer: a closure for the new entry would have to borrow the table that it
    // changes.
    pub(crate) fn intern(&mut self, node: Node) -> Id
        requires room { vec_len self.old.nodes < room }
        requires children { reach node ≤ vec_len self.old.nodes }
        ensures known { result.index < vec_len self.new.nodes }
        ensures tree { at (trees self.new.nodes.items) result ≡ tree_of (trees self.old.nodes.items) node }
        ensures kept { Kept (trees self.old.nodes.items) (trees self.new.nodes.items) }
        ensures grown { vec_len self.new.nodes ≤ vec_len self.old.nodes + 1 }
        ensures more { vec_len self.old.nodes ≤ vec_len self.new.nodes }
    {
        match self.find(node) {
            Some(x) => x,
            None => {
                let index = self.nodes.len();
                self.nodes.push_reserved(node);
                Id { index }
            }
        }
    }

    // The number that an entry is, if it is one.
    pub(crate) fn number(&self, x: Id) -> Option<u32>
        requires { x.index < vec_len self.now.nodes }
        ensures { num_of (at (trees self.now.nodes.items) x) ≡ numeral result }
    {
        let node = self.nodes[x.index];
        match node {
            Node::Number(n) => Some(n),
            _ => None,
        }
    }

    // Whether two entries are the same tree: they are one entry.
    pub(crate) fn same(&self, x: Id, y: Id) -> bool
        requires left { x.index < vec_len self.now.nodes }
        requires right { y.index < vec_len self.now.nodes }
        ensures { result ≡ same? (at (trees self.now.nodes.items) x) (at (trees self.now.nodes.items) y) }
    {
        x == y
    }
}
