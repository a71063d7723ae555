// The check of one block: it decides the block's rules over shared expressions.
#![tactic(auto)]

mod node;
mod note;
mod notes;
pub mod state;
mod table;
