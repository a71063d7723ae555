// The check of one block.
ghost use Rattle.std.specs.Prelude.{◌≡◌, ◌+◌, ◌*◌, ◌<◌, ◌≤◌, true, false, is_some, IsSome, length, map};
ghost use Rattle.rules.specs.Limits.{in_force};
ghost use Rattle.rules.specs.Notes.{next as next_of};
ghost use Rattle.rules.specs.Cards.{fresh};
ghost use Rattle.rules.specs.Rules.{leaves?};
ghost use Rattle.rules.specs.Block.{behind, ends?, keeps?, BlockJudged};
ghost use Rattle.rules.specs.Words.{block_code};
ghost use Rattle.blocks.specs.Code.{pair_kind};
ghost use Rattle.blocks.specs.Trees.{room};
ghost use Rattle.blocks.specs.View.{view, count, note_card, HasRoom, Grown};

use super::State;
use crate::node::Node;
use isa::card::{Block, Slot};
use isa::instruction::Instruction;
use isa::kinds::{Colour, Kind, Register};
use isa::limits::INSTRUCTIONS;
use isa::words::decode;

// Whether an instruction leaves its block.
fn leaves(kind: Kind) -> bool
    ensures { result ≡ leaves? kind }
{
    matches!(kind, Kind::Jump(Colour::Blue, _) | Kind::Halt)
}

// The instructions of a block's words, each in its two words; no block has more than a module may have.
fn instructions_of(part: &[u32]) -> &[[u32; 2]]
    ensures code { map pair_kind result.now ≡ block_code in_force part.now }
    ensures few { length result.now ≤ in_force.instructions }
{
    let (pairs, _) = part.as_chunks::<2>();
    &pairs[..pairs.len().min(INSTRUCTIONS as usize)]
}

impl State {
    // Notes what the card says of a register.
    // Stays (5): no plainer: that there is room holds while a block is begun and may not behind its instructions.
    fn open(&mut self, r: Register, slot: Slot)
        requires lowr { r.number < 32 }
        requires entries { count self.old < room }
        ensures after { view self.new ≡ note_card slot r (view self.old) }
        ensures entries { count self.new ≤ count self.old + 1 }
    {
        if let Some((c, v)) = slot {
            let x = self.share(Node::Variable(v.number));
            self.write(r, c, x);
        }
    }

    // The notes of a block's card.
    fn begin(&mut self, card: &[Slot; 32])
        ensures after { view self.new ≡ fresh card.now }
        ensures entries { count self.new ≤ 32 }
    {
        self.forget();
        for (r, slot) in card.iter().enumerate() {
            self.open(Register { number: r as u8 }, *slot);
        }
    }

    // Whether the block may end so, the next block being the one with this number.
    // Stays (5): no plainer: the public check takes the blocks and a number of one apart.
    fn ends(&self, blocks: &[Block], next: usize) -> bool
        ensures { result ≡ ends? (behind blocks.now next) (view self.now) }
    {
        blocks
            .get(next)
            .is_some_and(|block| self.is_settled() && self.meets(&block.card))
    }

    // Judges one place of a block, as `judge` does, and in the last place how the block ends.
    // Stays (5): no plainer: that there is room holds before an instruction and may not behind it, so it is no
    // invariant of the state.
    fn place(
        &mut self,
        blocks: &[Block],
        next: usize,
        instruction: Instruction,
        last: bool,
    ) -> Option<()>
        requires { HasRoom self.old }
        ensures answer { is_some result ≡ keeps? in_force blocks.now (behind blocks.now next) last instruction.kind (view self.old) }
        ensures after { IsSome result → view self.new ≡ next_of instruction.kind (view self.old) }
        ensures grown { Grown self.old self.new }
    {
        self.judge(blocks, instruction, last)?;
        (!last || leaves(instruction.kind) || self.ends(blocks, next)).then_some(())
    }

    // Checks a block with this card and these words, the next block being the one with this number: Ok
    // exactly when each instruction keeps its rule, and else the first that breaks it.
    pub fn check_block(
        &mut self,
        blocks: &[Block],
        card: &[Slot; 32],
        next: usize,
        part: &[u32],
    ) -> Result<(), usize>
        ensures { BlockJudged in_force blocks.now (behind blocks.now next) card.now (block_code in_force part.now) result }
    {
        self.begin(card);
        let pairs = instructions_of(part);
        for (i, pair) in pairs.iter().enumerate() {
            let instruction = decode(pair[0], pair[1]);
            let last = i + 1 == pairs.len();
            self.place(blocks, next, instruction, last).ok_or(i)?;
        }
        Ok(())
    }
}
