// Words that are laid out as a module.
ghost use Rattle.std.specs.Prelude.{◌≡◌};
ghost use Rattle.isa.specs.Layout.{word, LaidOut};

use crate::layout::Layout;

// A module: its words with their count of instructions, and its count of blocks.
#[derive(Clone, Copy)]
pub struct Module<'m> {
    pub layout: Layout<'m>,
    pub blocks: u32,
    ghost laid: { LaidOut layout.words.now },
    ghost instructions_counted: { layout.instructions ≡ word layout.words.now 0 },
    ghost blocks_counted: { blocks ≡ word layout.words.now 1 },
}
