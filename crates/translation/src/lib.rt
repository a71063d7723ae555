// Code for plans: what it is, that it keeps the rules of the check, and that its run does what the
// plan means.
#![tactic(auto)]

pub mod checked;
pub mod runs;
pub mod words;
