// The simulator: runs of checked code over any memory, with strikes on command.
#![tactic(auto)]

pub mod call;
mod fill;
mod latch;
pub mod place;
pub mod refusal;
pub mod simulator;
