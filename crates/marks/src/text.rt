ghost use Rattle.std.specs.Prelude.{◌≤◌, vec_capacity};

use crate::fault::MarkFault;
use grammar::mark::Placed;

// The marks of a text, and where they end: at the text's end, or at a strange mark.
#[derive(Drop)]
pub struct Marks {
    pub(crate) placed: Vec<Placed>,
    pub(crate) end: Result<usize, MarkFault>,
    ghost room: { 8192 ≤ vec_capacity placed },
}
