// Expressions as entries of a table.
use isa::kinds::Arithmetic;

// The place of an entry in the table.
// Stays (6): a rule of the project: a call that judges takes no memory. So an expression is an entry that
// refers to others, and not a tree of boxes; equal ones are one entry.
#[derive(Clone, Copy, PartialEq)]
pub struct Id {
    pub index: usize,
}

// An entry, which refers to earlier ones. `Load(k, e)` is the word at e's value after the first k of
// the block's stores.
#[derive(Clone, Copy, PartialEq)]
pub enum Node {
    Number(u32),
    Variable(u8),
    Op(Arithmetic, Id, Id),
    Load(u32, Id),
}
