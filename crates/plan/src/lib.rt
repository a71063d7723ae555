// The plan language: its reader, and the tables of a plan.
#![tactic(auto)]

pub mod access;
mod expression;
pub mod fault;
mod grow;
pub mod limits;
mod line;
mod look;
mod nesting;
mod read;
pub mod reader;
mod repeats;
pub mod tables;
pub mod tree;
