// The marks of a text: its words, numbers and signs, and where they end.
#![tactic(auto)]

mod access;
pub mod fault;
pub mod limits;
mod scan;
pub mod text;
pub mod unique;
mod word;
