// The instructions, their words, and the layout of a module.
#![tactic(auto)]

pub mod card;
pub mod encode;
pub mod instruction;
pub mod kinds;
pub mod layout;
pub mod limits;
pub mod module;
pub mod words;
