// Nodes of which a part of the code is still to come.
// Stays (7): a rule of the project: what is still to come of an expression lies on the stack as data.
use crate::twin::Twin;
use isa::kinds::Arithmetic;
use plan::tree::NodeId;

#[derive(Clone, Copy)]
pub enum Half {
    // All of the node's code, which leaves its value in the twin.
    Whole(NodeId, Twin),
    // The load of the cell whose address is in the twin.
    Load(Twin),
    // The operation on the values in two twins, whose result goes to the first.
    Operate(Arithmetic, Twin, Twin),
}
