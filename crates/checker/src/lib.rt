// The check of modules, and the pass that it gives.
#![tactic(auto)]

pub mod check;
pub mod fault;
pub mod pass;
