// Scripts: the command that a line is.
#![tactic(auto)]

pub mod command;
mod verb;
