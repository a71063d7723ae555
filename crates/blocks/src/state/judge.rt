// One instruction judged.
ghost use Rattle.std.specs.Prelude.{◌≡◌, ◌<◌, true, false, ◌&&◌, ◌==◌, is_some, IsSome};
ghost use Rattle.isa.specs.declared.kinds.Colour.TheVariants.{Blue};
ghost use Rattle.rules.specs.Limits.{in_force};
ghost use Rattle.rules.specs.Expressions.{same?};
ghost use Rattle.rules.specs.Notes.{target_of, next, none?, clear?, has?, expr_of};
ghost use Rattle.rules.specs.Rules.{numeral?, target?, own?, arrives?};
ghost use Rattle.blocks.specs.Trees.{at};
ghost use Rattle.blocks.specs.View.{view, known, count, noted, Answers, HasRoom, Grown};

use super::State;
use super::cards::starts;
use crate::node::Id;
use crate::note::Destination;
use isa::card::Block;
use isa::instruction::Instruction;
use isa::kinds::{Colour, Kind, Register};

impl State {
    // The number that a register is noted to be, in this colour.
    // Stays (5): no plainer: the colour is asked of a register's note and is no part of the register.
    fn numeral(&self, c: Colour, a: Register) -> Option<u32>
        requires lowa { a.number < 32 }
        ensures { Answers (numeral? c (noted self.now a)) (target_of (noted self.now a)) result }
    {
        let x = self.coloured(c, a)?;
        self.table.number(x)
    }

    // The block's start, not 0, that a register is noted to be, in green.
    fn target(&self, blocks: &[Block], a: Register) -> Option<u32>
        requires lowa { a.number < 32 }
        ensures { Answers (target? blocks.now (noted self.now a)) (target_of (noted self.now a)) result }
    {
        let t = self.numeral(Colour::Green, a)?;
        (t != 0 && starts(blocks, t)).then_some(t)
    }

    fn nothing_pending(&self) -> bool
        ensures { result ≡ none? (view self.now).pending }
    {
        self.pending.is_empty()
    }

    // Whether a jump may go there: nothing is pending, and the card of the block is met.
    fn arrives(&self, blocks: &[Block], place: u32) -> bool
        ensures { result ≡ arrives? blocks.now place (view self.now) }
    {
        self.nothing_pending() && self.enters(blocks, place)
    }

    // Whether a register is noted to be t, in blue, and a jump may go there.
    fn lands(&self, blocks: &[Block], a: Register, t: u32) -> bool
        requires { a.number < 32 }
        ensures { result ≡ (numeral? Blue (noted self.now a) && (t == target_of (noted self.now a) && arrives? blocks.now (target_of (noted self.now a)) (view self.now))) }
    {
        self.numeral(Colour::Blue, a) == Some(t) && self.arrives(blocks, t)
    }

    // Whether a register is noted to be this expression, in blue.
    fn is_blue(&self, a: Register, x: Id) -> bool
        requires register { a.number < 32 }
        requires entry { x.index < count self.now }
        ensures { result ≡ (has? Blue (noted self.now a) && same? (at (known self.now) x) (expr_of (noted self.now a))) }
    {
        self.coloured(Colour::Blue, a)
            .is_some_and(|y| self.table.same(x, y))
    }

    // Whether nothing is pending and no jump is under way.
    pub(super) fn is_settled(&self) -> bool
        ensures { result ≡ (none? (view self.now).pending && clear? (view self.now).dest) }
    {
        matches!(self.destination, Destination::Clear) && self.nothing_pending()
    }

    // Judges an instruction by its own rule: `Some` where it is kept, and what is known is then what is
    // known behind it. `last`: it is in its block's last place.
    pub(super) fn judge(
        &mut self,
        blocks: &[Block],
        instruction: Instruction,
        last: bool,
    ) -> Option<()>
        requires { HasRoom self.old }
        ensures answer { is_some result ≡ own? in_force blocks.now last instruction.kind (view self.old) }
        ensures after { IsSome result → view self.new ≡ next instruction.kind (view self.old) }
        ensures grown { Grown self.old self.new }
    {
        match (self.destination, instruction.kind) {
            (_, Kind::Move(c, a, n)) => self.mov(c, a, n),
            (_, Kind::Copy(a, b)) => self.copy(a, b)?,
            (_, Kind::Arith(o, a, b, c)) => self.arithmetic(o, a, b, c)?,
            (_, Kind::Load(c, a, b)) => self.load(c, a, b)?,
            (_, Kind::Store(c, a, b)) => self.store(c, a, b)?,
            (Destination::Clear, Kind::Jump(Colour::Green, a)) => {
                let t = self.target(blocks, a)?;
                self.destination = Destination::Jump(t);
            }
            (Destination::Jump(t), Kind::Jump(Colour::Blue, a))
                if last && self.lands(blocks, a, t) => {
                self.destination = Destination::Clear;
            }
            (Destination::Clear, Kind::Branch(Colour::Green, a, b)) => {
                let x = self.coloured(Colour::Green, a)?;
                let t = self.target(blocks, b)?;
                self.destination = Destination::If(x, t);
            }
            (Destination::If(x, t), Kind::Branch(Colour::Blue, a, b))
                if self.is_blue(a, x) && self.lands(blocks, b, t) => {
                self.destination = Destination::Clear;
            }
            (Destination::Clear, Kind::Halt) if last && self.nothing_pending() => {}
            _ => return None,
        }
        Some(())
    }
}
