// The code of an expression. Nodes of which a part is still to come are kept on a stack, the one whose
// code comes next on top.
ghost use Rattle.std.specs.Prelude.{◌≡◌, ◌<◌, [], ◌∷◌, ◌++◌, length, vec_len};
ghost use Rattle.language.specs.Limits.{nodes as nodes_of};
ghost use Rattle.stack.specs.Items.{items, room as slots_of};
ghost use Rattle.plan.specs.Trees.{tree_at};
ghost use Rattle.compiler.specs.declared.half.Half.TheVariants.{Whole};
ghost use Rattle.compiler.specs.Emitting.{Adds, computed};
ghost use Rattle.compiler.specs.Halves.{FitsHalf, FitsExpression, Goes};

use crate::half::Half;
use crate::line::Source;
use crate::lines::Lines;
use crate::twin::Twin;
use plan::tree::{Node, NodeId};
use stack::slots::Stack;

// A plan's expression is taken apart into fewer halves. In other tables a node may be a part of itself.
pub(crate) const HALVES: usize = 1024;

// One half more; nothing where there is no slot for it.
fn keep(stack: &mut Stack<'_, Half>, half: Half)
    ensures items { length (items stack.old) < slots_of stack.old → items stack.new ≡ items stack.old ++ (half ∷ []) }
    ensures slots { slots_of stack.new ≡ slots_of stack.old }
{
    let _ = stack.push(half);
}

// Stays (5): the stack and the nodes, and above them the slots and the nodes, are no plainer as one struct: lent
// to be changed, it would need a clause of each function that the nodes and the number of slots stay.
impl Lines {
    // Begins with a node: a number and a variable are one line each; the parts of any other are kept.
    // A node that the table has not got is left out.
    fn open(&mut self, stack: &mut Stack<'_, Half>, nodes: &[Node], id: NodeId, twin: Twin)
        ensures goes { FitsHalf nodes.now self.old stack.old (Whole id twin) → Goes nodes.now self.old self.new (items stack.old) (items stack.new) (Whole id twin) }
        ensures slots { slots_of stack.new ≡ slots_of stack.old }
    {
        let Some(node) = nodes.get(id.index) else {
            return;
        };
        match *node {
            Node::Number(n) => self.set(twin, Source::Number(n)),
            Node::Variable(v) => self.set(twin, Source::Copy(Twin::from(v))),
            Node::Cell(address) => {
                keep(stack, Half::Load(twin));
                keep(stack, Half::Whole(address, twin));
            }
            Node::Binary(op, left, right) => {
                let next = twin.behind();
                keep(stack, Half::Operate(op, twin, next));
                keep(stack, Half::Whole(right, next));
                keep(stack, Half::Whole(left, twin));
            }
        }
    }

    // Goes on with the half that comes next.
    fn go_on(&mut self, stack: &mut Stack<'_, Half>, nodes: &[Node], half: Half)
        ensures goes { FitsHalf nodes.now self.old stack.old half → Goes nodes.now self.old self.new (items stack.old) (items stack.new) half }
        ensures slots { slots_of stack.new ≡ slots_of stack.old }
    {
        match half {
            Half::Whole(id, twin) => self.open(stack, nodes, id, twin),
            Half::Load(twin) => self.set(twin, Source::Cell(twin)),
            Half::Operate(op, left, right) => self.set(left, Source::Operation(op, left, right)),
        }
    }

    // The code of an expression, which leaves its value in the twin. An operation keeps the value of
    // its left side there while the one of its right side is made in the next twin.
    // Stays (5): no plainer: slots and nodes in one struct (see at the head of this block).
    pub(crate) fn expression(
        &mut self,
        slots: &mut [Half],
        nodes: &[Node],
        root: NodeId,
        twin: Twin,
    )
        ensures { FitsExpression nodes.now (length slots.old) (vec_len self.old.lines) twin.number root →
            Adds self.old self.new (computed twin.number (tree_at nodes.now root)) (nodes_of (tree_at nodes.now root)) }
    {
        let mut stack = Stack::new(slots);
        keep(&mut stack, Half::Whole(root, twin));
        for _ in 0..HALVES {
            let Some(half) = stack.pop() else {
                return;
            };
            self.go_on(&mut stack, nodes, half);
        }
    }
}
