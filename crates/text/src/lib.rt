// Text as hosts write it: words, numbers and lists of them; lines and columns of a byte.
#![tactic(auto)]

pub mod bytes;
pub mod list;
pub mod number;
pub mod place;
