// The compiler: a plan's tables to code over twin registers, and that code, doubled, to the words of
// a module.
#![tactic(auto)]

pub mod access;
pub mod compile;
pub mod double;
mod emit;
mod expression;
pub mod fault;
pub mod half;
mod judge;
pub mod line;
pub mod lines;
mod select;
pub mod tables;
pub mod twin;
pub mod unique;
mod width;
mod write;
mod writer;
