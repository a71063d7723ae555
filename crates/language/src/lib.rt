// The plan language: what a plan is, what it means, and its limits.
#![tactic(auto)]

pub mod laws;
pub mod sample;
