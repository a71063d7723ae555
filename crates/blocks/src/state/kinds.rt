// The instructions that write a note or a pending pair.
ghost use Rattle.std.specs.Prelude.{◌≡◌, ◌<◌, ◌≤◌, true, false, ◌&&◌, [], is_some, IsSome, length, vec_len, nat_lt};
ghost use Rattle.rules.specs.Limits.{in_force};
ghost use Rattle.rules.specs.Notes.{has?, next, mov, cpy, arith, ld, st, noted?, alike?, pushed, popped};
ghost use Rattle.rules.specs.Rules.{own?, oldest?};
ghost use Rattle.blocks.specs.Reach.{reach_pair};
ghost use Rattle.blocks.specs.Trees.{room, at};
ghost use Rattle.blocks.specs.View.{view, known, count, noted, HasRoom, Grown};

use super::State;
use crate::node::Node;
use crate::note::Pair;
use isa::kinds::{Arithmetic, Colour, Register};
use isa::limits::QUEUE;

// Stays (5): no plainer: a bound in `Register` itself would ask more of whoever makes a `Kind`; and for registers of
// a type of this crate's own each of judge's ten arms would first have to make them.
impl State {
    // Stays (5): no plainer: here and below the colour is asked of a register's note and is no part of the register;
    // and that there is room for an entry holds before an instruction and may not behind it.
    pub(super) fn mov(&mut self, c: Colour, a: Register, n: u32)
        requires lowa { a.number < 32 }
        requires entries { count self.old < room }
        ensures after { view self.new ≡ next (mov c a n) (view self.old) }
        ensures grown { Grown self.old self.new }
    {
        let x = self.share(Node::Number(n));
        self.write(a, c, x);
    }

    // Stays (5): no plainer: here and below two registers are the operands of one instruction, each in its own part.
    pub(super) fn copy(&mut self, a: Register, b: Register) -> Option<()>
        requires lowa { a.number < 32 }
        requires lowb { b.number < 32 }
        ensures answer { is_some result ≡ noted? (noted self.old b) }
        ensures after { IsSome result → view self.new ≡ next (cpy a b) (view self.old) }
        ensures grown { Grown self.old self.new }
    {
        let noted = self.notes.note(b)?;
        self.write(a, noted.colour, noted.expression);
        Some(())
    }

    pub(super) fn arithmetic(
        &mut self,
        o: Arithmetic,
        a: Register,
        b: Register,
        c: Register,
    ) -> Option<()>
        requires lowa { a.number < 32 }
        requires lowb { b.number < 32 }
        requires lowc { c.number < 32 }
        requires entries { count self.old < room }
        ensures answer { is_some result ≡ alike? (noted self.old b) (noted self.old c) }
        ensures after { IsSome result → view self.new ≡ next (arith o a b c) (view self.old) }
        ensures grown { Grown self.old self.new }
    {
        let left = self.notes.note(b)?;
        let right = self.coloured(left.colour, c)?;
        let z = self.operate(o, left.expression, right);
        self.write(a, left.colour, z);
        Some(())
    }

    pub(super) fn load(&mut self, c: Colour, a: Register, b: Register) -> Option<()>
        requires lowa { a.number < 32 }
        requires lowb { b.number < 32 }
        requires entries { count self.old < room }
        ensures answer { is_some result ≡ has? c (noted self.old b) }
        ensures after { IsSome result → view self.new ≡ next (ld c a b) (view self.old) }
        ensures grown { Grown self.old self.new }
    {
        let x = self.coloured(c, b)?;
        let z = self.loaded(c, x);
        self.write(a, c, z);
        Some(())
    }

    // Whether one pair more may be pending.
    fn has_room(&self) -> bool
        ensures { result ≡ nat_lt (vec_len self.now.pending) in_force.queue }
    {
        self.pending.len() < QUEUE
    }

    // One pair more, exactly where there is room.
    fn push(&mut self, pair: Pair) -> Option<()>
        requires pair { reach_pair pair ≤ count self.old }
        requires few { self.old.green < in_force.instructions }
        ensures answer { is_some result ≡ nat_lt (length (view self.old).pending) in_force.queue }
        ensures after { IsSome result → view self.new ≡ pushed (view self.old) (at (known self.old) pair.address) (at (known self.old) pair.word) }
        ensures grown { Grown self.old self.new }
    {
        if !self.has_room() {
            return None;
        }
        self.pending.push_reserved(pair);
        self.green += 1;
        Some(())
    }

    // Whether the oldest pending pair is this one.
    fn is_oldest(&self, pair: Pair) -> bool
        requires { reach_pair pair ≤ count self.now }
        ensures { result ≡ oldest? (view self.now).pending (at (known self.now) pair.address) (at (known self.now) pair.word) }
    {
        self.pending.first().is_some_and(|oldest| pair == *oldest)
    }

    // Lets the oldest pair go, exactly where it is this one.
    fn pop(&mut self, pair: Pair) -> Option<()>
        requires pair { reach_pair pair ≤ count self.old }
        requires few { self.old.blue < in_force.instructions }
        ensures answer { is_some result ≡ oldest? (view self.old).pending (at (known self.old) pair.address) (at (known self.old) pair.word) }
        ensures after { IsSome result → view self.new ≡ popped (view self.old) }
        ensures grown { Grown self.old self.new }
    {
        if !self.is_oldest(pair) {
            return None;
        }
        let _ = self.pending.remove(0);
        self.blue += 1;
        Some(())
    }

    pub(super) fn store(&mut self, c: Colour, a: Register, b: Register) -> Option<()>
        requires lowa { a.number < 32 }
        requires lowb { b.number < 32 }
        requires room { HasRoom self.old }
        ensures answer { is_some result ≡ own? in_force [] false (st c a b) (view self.old) }
        ensures after { IsSome result → view self.new ≡ next (st c a b) (view self.old) }
        ensures grown { Grown self.old self.new }
    {
        let address = self.coloured(c, a)?;
        let word = self.coloured(c, b)?;
        let pair = Pair { address, word };
        match c {
            Colour::Green => self.push(pair),
            Colour::Blue => self.pop(pair),
        }
    }
}
