// A note for each register.
ghost use Rattle.std.specs.Prelude.{◌≡◌, vec_len};

use crate::note::Note;

// Stays (6): a rule of the project has one note lent to be changed; an array was tried, and of the lending the
// check says "no `follows` .. clause can be shown of this body".
#[derive(Drop)]
pub struct Notes {
    all: Vec<Note>,
    ghost full: { vec_len all ≡ 32 },
}

mod lent;
