// A module as a person reads it: one instruction a line, blocks with their cards.
ghost use Rattle.std.specs.Prelude.{◌≡◌};
ghost use Rattle.listing.specs.Blocks.{block_end};

use crate::card::CardEntry;
use crate::instruction::Listed;
use isa::card::Block;
use isa::kinds::Kind;
use isa::layout::{Layout, block_count, instruction_at};
use isa::limits::REGISTERS;
use std::io;

// Where a block ends: the start of the next one, or the module's end.
pub fn block_end(words: &[u32], block: u32) -> u32
    ensures { result ≡ block_end words.now block }
{
    let layout = Layout::new(words);
    let next = block.saturating_add(1);
    if next < block_count(words) {
        layout.start(next)
    } else {
        layout.instructions
    }
}

// One instruction behind its number.
pub fn print_instruction<R: Print>(rt: &R, place: u32, kind: Kind) -> io::Result<()> {
    let listed = Listed { kind };
    println!(rt; "  {place:>4}  {listed}")
}

// A block's card: the registers that it colours, each with its variable.
fn print_card<R: Print>(rt: &R, block: &Block) -> io::Result<()> {
    if block.card.iter().all(|slot| slot.is_none()) {
        print!(rt; " all registers free")?;
    }
    for (register, slot) in (0..REGISTERS).zip(block.card) {
        let entry = CardEntry { register, slot };
        print!(rt; "{entry}")?;
    }
    println!(rt; "")
}

// A module's blocks, each with its card and its instructions.
pub fn print_module<R: Print>(rt: &R, words: &[u32]) -> io::Result<()> {
    let layout = Layout::new(words);
    for number in 0..block_count(words) {
        let block = layout.block(number);
        print!(rt; "block {number}, from instruction {}; card:", block.start)?;
        print_card(rt, &block)?;
        for place in block.start..block_end(words, number) {
            print_instruction(rt, place, instruction_at(words, place).kind)?;
        }
    }
    Ok(())
}
