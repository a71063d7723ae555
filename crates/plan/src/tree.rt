// A plan as two tables: the nodes of its expressions, and its statements.
use grammar::variable::Variable;
use isa::kinds::Arithmetic;

// A node by its place in the table of nodes.
// Stays (6): a rule of the project: room for nodes is made once, and boxes would ask for memory while
// a text is read.
#[derive(Clone, Copy)]
pub struct NodeId {
    pub index: usize,
}

// A part of an expression; the nodes that it is made of stand before it in the table.
#[derive(Clone, Copy)]
pub enum Node {
    Number(u32),
    Variable(Variable),
    // The cell at an address.
    Cell(NodeId),
    Binary(Arithmetic, NodeId, NodeId),
}

// A whole expression: its node, and the byte of the text at which it begins.
#[derive(Clone, Copy)]
pub struct Expression {
    pub root: NodeId,
    pub place: usize,
}

// A line of a plan. `body` is how many instructions the lines between a REPEAT and its END need.
#[derive(Clone, Copy)]
pub enum Statement {
    Let(Variable, Expression),
    // Stores at the address, which is the first, the value, which is the second.
    Put(Expression, Expression),
    Repeat { count: Expression, body: u32 },
    End { body: u32 },
}
