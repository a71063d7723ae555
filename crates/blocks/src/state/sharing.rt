// Notes and expressions of the check's state.
ghost use Rattle.std.specs.Prelude.{◌≡◌, ◌<◌, ◌≤◌, true, false, [], IfOk, vec_capacity, MatchOption};
ghost use Rattle.rules.specs.Limits.{in_force};
ghost use Rattle.rules.specs.Expressions.{mk, load};
ghost use Rattle.rules.specs.Notes.{note, set_note, has?, stores};
ghost use Rattle.rules.specs.Cards.{fresh};
ghost use Rattle.blocks.specs.Trees.{room, tree_of, at, reach};
ghost use Rattle.blocks.specs.View.{view, known, count, noted, Grown};

use super::State;
use crate::node::{Id, Node};
use crate::note::{Destination, Noted, Pair};
use crate::notes::Notes;
use crate::table::Table;
use isa::kinds::{Arithmetic, Colour, Register};
use isa::limits::QUEUE;
use std::alloc::{AllocError, Global};

// Room for the pending pairs.
fn pairs(heap: Global) -> Result<Vec<Pair>, AllocError>
    ensures { IfOk result (λ v. (v.items ≡ []) × (in_force.queue ≤ vec_capacity v)) }
{
    Vec::with_capacity(heap, QUEUE)
}

impl State {
    // Room for the check of any block.
    pub fn new(heap: Global) -> Result<State, AllocError> {
        let table = Table::new(heap)?;
        let notes = Notes::new(heap)?;
        let pending = pairs(heap)?;
        Ok(State {
            table,
            notes,
            pending,
            green: 0,
            blue: 0,
            destination: Destination::Clear,
        })
    }

    // Nothing is known.
    pub(super) fn forget(&mut self)
        ensures after { view self.new ≡ fresh [] }
        ensures entries { count self.new ≡ 0 }
    {
        self.notes.clear();
        self.pending.clear();
        self.destination = Destination::Clear;
        self.green = 0;
        self.blue = 0;
        self.table.clear();
    }

    // The entry with the node's tree; all that was known stays.
    // Stays (5): no plainer: that there is room holds before an instruction and may not behind it.
    pub(super) fn share(&mut self, node: Node) -> Id
        requires room { count self.old < room }
        requires children { reach node ≤ count self.old }
        ensures known { result.index < count self.new }
        ensures tree { at (known self.new) result ≡ tree_of (known self.old) node }
        ensures same { view self.new ≡ view self.old }
        ensures grown { Grown self.old self.new }
    {
        self.table.intern(node)
    }

    // The entry of an operation, or of its result where both are numbers.
    // Stays (5): no plainer: that an entry is there is a fact of the table and not of the `Id` alone.
    pub(super) fn operate(&mut self, o: Arithmetic, x: Id, y: Id) -> Id
        requires room { count self.old < room }
        requires left { x.index < count self.old }
        requires right { y.index < count self.old }
        ensures known { result.index < count self.new }
        ensures tree { at (known self.new) result ≡ mk o (at (known self.old) x) (at (known self.old) y) }
        ensures same { view self.new ≡ view self.old }
        ensures grown { Grown self.old self.new }
    {
        match (self.table.number(x), self.table.number(y)) {
            (Some(m), Some(n)) => self.share(Node::Number(o.apply(m, n))),
            _ => self.share(Node::Op(o, x, y)),
        }
    }

    // The stores that a load of this colour comes after.
    fn stores(&self, c: Colour) -> u32
        ensures { result ≡ stores (view self.now) c }
    {
        match c {
            Colour::Green => self.green,
            Colour::Blue => self.blue,
        }
    }

    // The entry of a load of this colour.
    pub(super) fn loaded(&mut self, c: Colour, x: Id) -> Id
        requires room { count self.old < room }
        requires address { x.index < count self.old }
        ensures known { result.index < count self.new }
        ensures tree { at (known self.new) result ≡ load (stores (view self.old) c) (at (known self.old) x) }
        ensures same { view self.new ≡ view self.old }
        ensures grown { Grown self.old self.new }
    {
        let k = self.stores(c);
        self.share(Node::Load(k, x))
    }

    // Writes a register's note, and leaves the other 31.
    // Stays (5): no plainer: the colour is that of a register's note and is no part of the register.
    pub(super) fn write(&mut self, a: Register, c: Colour, x: Id)
        requires lowa { a.number < 32 }
        requires entry { x.index < count self.old }
        ensures after { view self.new ≡ set_note (view self.old) a (note c (at (known self.old) x)) }
        ensures table { self.new.table ≡ self.old.table }
    {
        *self.notes.note_mut(a) = Some(Noted {
            colour: c,
            expression: x,
        });
    }

    // The expression of a register that is noted in this colour.
    // Stays (5): no plainer: the colour is asked of a register's note and is no part of the register.
    pub(super) fn coloured(&self, c: Colour, a: Register) -> Option<Id>
        requires lowa { a.number < 32 }
        ensures { MatchOption result (has? c (noted self.now a) ≡ false) (λ x. (noted self.now a ≡ note c (at (known self.now) x)) × (has? c (noted self.now a) ≡ true) × (x.index < count self.now)) }
    {
        let noted = self.notes.note(a)?;
        (noted.colour == c).then_some(noted.expression)
    }
}
