// Queueing pairs, and letting them go.
ghost use Rattle.std.specs.Prelude.{◌≡◌, ℕ, true, List, [], ◌∷◌, ◌++◌, length, is_ok, if◌then◌else◌, IfErr, MatchOption, nat_lt};
ghost use Rattle.std.specs.Option.{unwrap_or};
ghost use Rattle.machine.specs.Pairs.{newest, first, rest, some?, overlay};
ghost use Rattle.machine.specs.Queued.{queued};

use super::{Pair, Queue};

impl Queue {
    pub(crate) fn new() -> Queue
        ensures { queued result ≡ [] }
    {
        let empty = Pair {
            address: 0,
            word: 0,
        };
        Queue {
            slots: [empty; 16],
            len: 0,
        }
    }

    // The slots in use.
    pub(super) fn pairs(&self) -> &[Pair]
        ensures { result.now ≡ queued self.now }
    {
        &self.slots[..self.len]
    }

    // Adds a pair, or hands it back where 16 are queued.
    // Stays (2): no plainer: the crate `stack` pushes alike, but over slots that it borrows and not on latches.
    pub(crate) fn push(&mut self, pair: Pair) -> Result<(), Pair>
        ensures room { is_ok result ≡ nat_lt (length (queued self.old)) 16 }
        ensures after { queued self.new ≡ (if is_ok result then queued self.old ++ (pair ∷ []) else queued self.old) }
        ensures back { IfErr result (λ p. p ≡ pair) }
    {
        if self.len >= self.slots.len() {
            return Err(pair);
        }
        self.slots[self.len] = pair;
        self.len += 1;
        Ok(())
    }

    // The oldest pair.
    pub(crate) fn oldest(&self) -> Option<Pair>
        ensures { MatchOption result (queued self.now ≡ []) (λ p. (some? (queued self.now) ≡ true) × (first (queued self.now) ≡ p)) }
    {
        self.pairs().first().copied()
    }

    // Lets the oldest pair go.
    pub(crate) fn pop(&mut self)
        ensures { queued self.new ≡ rest (queued self.old) }
    {
        if self.len > 0 {
            self.slots.rotate_left(1);
            self.len -= 1;
        }
    }

    // The word of the newest pair that has the address; with it, or else the memory's word, this
    // is what stands there once the pairs are laid over the memory.
    pub(crate) fn find(&self, address: u32) -> Option<u32>
        ensures newest { result ≡ newest (queued self.now) address }
        ensures over { (words : ℕ → ℕ) → overlay (queued self.now) words address ≡ unwrap_or result (words address) }
    {
        let newest = self
            .pairs()
            .iter()
            .rev()
            .find(|pair| pair.address == address);
        newest.map(|pair| pair.word)
    }
}
