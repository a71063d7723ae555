// Instructions, cards and modules as a person reads them.
#![tactic(auto)]

pub mod card;
pub mod instruction;
pub mod module;
