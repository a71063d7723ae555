// The pairs that green has stored and blue has not yet.
ghost use Rattle.std.specs.Prelude.{◌≡◌, ◌≤◌, length};

pub mod numbered;
pub mod pairs;

// A store under way: the word for an address.
#[derive(Clone, Copy, Debug, PartialEq, Eq)]
pub struct Pair {
    pub address: u32,
    pub word: u32,
}

// At most 16 pairs, the oldest first: the first `len` slots are in use.
// Stays (6): a rule of the project: latches are of a fixed size and copied whole, and the kit's fixed vectors are not Copy.
#[derive(Clone, Copy)]
pub struct Queue {
    slots: [Pair; 16],
    len: usize,
    ghost within: { len ≤ 16 },
    ghost size: { length slots ≡ 16 },
}
