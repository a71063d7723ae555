// The machine: its latches, one step, and a run of many, over any memory.
#![tactic(auto)]

pub mod code;
pub mod ends;
pub mod latches;
pub mod queue;
pub mod run;
