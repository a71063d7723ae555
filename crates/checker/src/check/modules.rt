// A module's blocks read and checked.
ghost use Rattle.std.specs.Prelude.{◌≡◌, ◌+◌, ◌*◌, ◌^◌, ◌<◌, ◌≤◌, length, vec_len};
ghost use Rattle.std.specs.List.{between};
ghost use Rattle.rules.specs.Limits.{in_force};
ghost use Rattle.rules.specs.Block.{behind, card_at, BlockJudged};
ghost use Rattle.rules.specs.Words.{edge as edge_of, module_of, kinds_of};
ghost use Rattle.checker.specs.declared.fault.CheckFault.TheVariants.{Rule};
ghost use Rattle.checker.specs.Passing.{Judged, Checked};

use super::Checker;
use crate::fault::CheckFault;
use crate::pass::Pass;
use blocks::state::State;
use isa::layout::examine;
use isa::limits::BLOCKS;
use isa::module::Module;
use std::alloc::{AllocError, Global};

impl Checker {
    pub fn new(heap: Global) -> Result<Checker, AllocError> {
        let state = State::new(heap)?;
        let blocks = Vec::with_capacity(heap, BLOCKS as usize)?;
        Ok(Checker { state, blocks })
    }

    // Reads the blocks of a module.
    fn read_blocks(&mut self, examined: &Module)
        ensures { self.new.blocks.items ≡ (module_of examined.now.layout.words.now).blocks }
    {
        self.blocks.clear();
        for b in 0..examined.blocks {
            self.blocks.push_reserved(examined.layout.block(b));
        }
    }

    // Checks one block, `part` being its words.
    fn check_part(&mut self, b: usize, part: &[u32]) -> Result<(), usize>
        requires there { b < vec_len self.old.blocks }
        requires few { length part.now ≤ 2 * in_force.instructions }
        ensures answer { BlockJudged in_force self.old.blocks.items (behind self.old.blocks.items (b + 1)) (card_at self.old.blocks.items b) (kinds_of part.now) result }
        ensures blocks { self.new.blocks ≡ self.old.blocks }
    {
        self.state
            .check_block(self.blocks.as_slice(), &self.blocks[b].card, b + 1, part)
    }

    // Checks the blocks of a module in their order.
    fn check_blocks(&mut self, examined: &Module) -> Result<(), CheckFault>
        requires { self.old.blocks.items ≡ (module_of examined.now.layout.words.now).blocks }
        ensures { Judged examined.now.layout.words.now result }
    {
        for b in 0..examined.blocks {
            let from = edge(examined, b);
            let to = edge(examined, b + 1);
            let part = code(examined.layout.words, from, to);
            self.check_part(b as usize, part)
                .map_err(|k| broken(from, k))?;
        }
        Ok(())
    }

    // Judges words: layout first, and then the blocks in their order.
    fn judge(&mut self, words: &[u32]) -> Result<(), CheckFault>
        ensures { Judged words.now result }
    {
        let examined = examine(words)?;
        self.read_blocks(&examined);
        self.check_blocks(&examined)
    }

    // A pass over words that pass the check; other words are refused with their first fault.
    pub fn check<'m>(&mut self, words: &'m [u32]) -> Result<Pass<'m>, CheckFault>
        ensures { Checked words.now result }
    {
        self.judge(words)?;
        Ok(Pass::over(words))
    }
}

// Where a block starts, and behind the last one where the module ends.
fn edge(examined: &Module, b: u32) -> usize
    ensures { result ≡ edge_of examined.now.layout.words.now b }
{
    if b < examined.blocks {
        examined.layout.start(b) as usize
    } else {
        examined.layout.instructions as usize
    }
}

// The fault of a block's k-th instruction, the block starting at this place.
fn broken(from: usize, k: usize) -> CheckFault
    requires { from + k < 2 ^ 32 }
    ensures { result ≡ Rule (from + k) }
{
    CheckFault::Rule((from + k) as u32)
}

// The words of the instructions from one place to another.
fn code(words: &[u32], from: usize, to: usize) -> &[u32]
    requires order { from ≤ to }
    requires within { 2 + 2 * to ≤ length words.now }
    ensures { result.now ≡ between (2 + 2 * from) (2 + 2 * to) words.now }
{
    &words[2 + 2 * from..2 + 2 * to]
}
