// The queued pairs by their numbers, the oldest being 0.
ghost use Rattle.std.specs.Prelude.{◌≡◌, length, slice_set};
ghost use Rattle.std.specs.List.{slice_get};
ghost use Rattle.machine.specs.Queued.{queued};

use super::{Pair, Queue};

impl Queue {
    pub fn len(&self) -> usize
        ensures { result ≡ length (queued self.now) }
    {
        self.len
    }

    // The pair with this number.
    pub fn get(&self, at: usize) -> Option<Pair>
        ensures { result ≡ slice_get (queued self.now) at }
    {
        self.pairs().get(at).copied()
    }

    // Replaces the pair with this number, if there is one.
    pub fn set(&mut self, at: usize, pair: Pair)
        ensures { queued self.new ≡ slice_set (queued self.old) at pair }
    {
        if at < self.len {
            self.slots[at] = pair;
        }
    }
}
