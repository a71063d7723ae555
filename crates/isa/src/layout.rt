// The layout of a module's words.
ghost use Rattle.std.specs.Prelude.{◌≡◌, ℕ, ◌+◌, ◌*◌, ◌/◌, ◌%◌, ◌<◌, ◌≤◌, true, false, length, None, Ok, Err, slice_index_or};
ghost use Rattle.isa.specs.Layout.{word as word_at, kind_at, well_formed_at, start_at, card_byte, slot_byte, slotted, measured, every, start_fits, slot_fits, card_fits, block_fits, code_fits, LaidOut, BadBlock};
ghost use Rattle.isa.specs.Faults.{Examined};

use crate::card::{Block, Slot, Variable};
use crate::instruction::Instruction;
use crate::kinds::Colour;
use crate::limits::{BLOCKS, INSTRUCTIONS};
use crate::module::Module;
use crate::words::{decode, is_well_formed};
use std::array;

// Why words are no module.
#[derive(Clone, Copy, Debug, PartialEq, Eq)]
pub enum LayoutFault {
    // Length, counts, operations or fields.
    Malformed,
    // The first block with a bad start or a bad card.
    Block(u32),
}

// The word at a place; 0 past the end.
fn word(words: &[u32], at: usize) -> u32
    ensures { result ≡ word_at words.now at }
{
    words.get(at).copied().unwrap_or(0)
}

// How many instructions the words say that they have.
pub fn instruction_count(words: &[u32]) -> u32
    ensures { result ≡ word_at words.now 0 }
{
    word(words, 0)
}

// How many blocks the words say that they have.
pub fn block_count(words: &[u32]) -> u32
    ensures { result ≡ word_at words.now 1 }
{
    word(words, 1)
}

// The two words of the instruction with this number.
// Stays (5): no plainer: the number is an index into the words, and needs no count of them as a `Layout` does.
fn words_at(words: &[u32], place: u32) -> (u32, u32)
    ensures { result ≡ (word_at words.now (2 + 2 * place), word_at words.now (2 + 2 * place + 1)) }
{
    let at = 2 + 2 * place as usize;
    (word(words, at), word(words, at + 1))
}

// The instruction with this number.
pub fn instruction_at(words: &[u32], place: u32) -> Instruction
    ensures { result.kind ≡ kind_at words.now place }
{
    let (first, second) = words_at(words, place);
    decode(first, second)
}

// Whether a card may have this byte.
fn is_slot(byte: u8) -> bool
    ensures { result ≡ slotted byte }
{
    matches!(byte, 0..=32 | 129..=160)
}

// The entry of a card that a byte is; None for a byte that no card may have.
// Stays (1): a rule of the project: the format has numbers for colours and variables.
fn slot(byte: u8) -> Slot
    ensures read { slotted byte ≡ true → slot_byte result ≡ byte }
    ensures strange { slotted byte ≡ false → result ≡ None }
{
    match byte {
        1..=32 => Some((Colour::Green, Variable { number: byte - 1 })),
        129..=160 => Some((Colour::Blue, Variable { number: byte - 129 })),
        _ => None,
    }
}

// Words read as a module of so many instructions; 0 stands for each word past their end.
#[derive(Clone, Copy)]
pub struct Layout<'m> {
    pub words: &'m [u32],
    pub instructions: u32,
}

impl<'m> Layout<'m> {
    // The words, with the count of instructions that they say they have.
    pub fn new(words: &'m [u32]) -> Layout<'m>
        ensures words { result.words.now ≡ words.now }
        ensures instructions { result.instructions ≡ word_at words.now 0 }
    {
        Layout {
            words,
            instructions: instruction_count(words),
        }
    }

    // The first instruction of a block.
    pub fn start(&self, block: u32) -> u32
        ensures { result ≡ start_at self.now.words.now self.now.instructions block }
    {
        let at = 2 + 2 * self.instructions as usize + 9 * block as usize;
        word(self.words, at)
    }

    // What the card of a block says of a register, as a byte.
    // Stays (5): no plainer: a block and a register are the two coordinates of one entry.
    fn card_byte(&self, block: u32, register: u8) -> u8
        ensures { result ≡ card_byte self.now.words.now self.now.instructions block register }
    {
        let at = 3 + 2 * self.instructions as usize + 9 * block as usize + (register / 4) as usize;
        word(self.words, at).to_be_bytes()[register as usize % 4]
    }

    // What the card of a block says of a register.
    pub fn slot(&self, block: u32, register: u8) -> Slot
        ensures read { slotted (card_byte self.now.words.now self.now.instructions block register) ≡ true → slot_byte result ≡ card_byte self.now.words.now self.now.instructions block register }
        ensures strange { slotted (card_byte self.now.words.now self.now.instructions block register) ≡ false → result ≡ None }
    {
        slot(self.card_byte(block, register))
    }

    // A block with its card.
    pub fn block(&self, block: u32) -> Block
        ensures start { result.start ≡ start_at self.now.words.now self.now.instructions block }
        ensures card { (k : ℕ) → k < 32 → slotted (card_byte self.now.words.now self.now.instructions block k) ≡ true → slot_byte (slice_index_or result.card k None) ≡ card_byte self.now.words.now self.now.instructions block k }
    {
        Block {
            start: self.start(block),
            card: array::from_fn(|register| self.slot(block, register as u8)),
        }
    }

    // Whether the entry of a block's card for a register is one that it may be.
    fn fits_slot(&self, block: u32, register: u8) -> bool
        ensures { result ≡ slot_fits self.now.words.now self.now.instructions block register }
    {
        let byte = self.card_byte(block, register);
        if block == 0 { byte == 0 } else { is_slot(byte) }
    }

    fn fits_card(&self, block: u32) -> bool
        ensures { result ≡ card_fits self.now.words.now self.now.instructions block }
    {
        (0..32).all(|register| self.fits_slot(block, register))
    }

    fn fits_start(&self, block: u32) -> bool
        ensures { result ≡ start_fits self.now.words.now self.now.instructions block }
    {
        let start = self.start(block);
        let rises = if block == 0 {
            start == 0
        } else {
            self.start(block - 1) < start
        };
        rises && start < self.instructions
    }

    fn fits_block(&self, block: u32) -> bool
        ensures { result ≡ block_fits self.now.words.now self.now.instructions block }
    {
        self.fits_start(block) && self.fits_card(block)
    }
}

fn is_measured(words: &[u32]) -> bool
    ensures { result ≡ measured words.now }
{
    let instructions = instruction_count(words);
    let blocks = block_count(words);
    (1..=INSTRUCTIONS).contains(&instructions)
        && (1..=BLOCKS).contains(&blocks)
        && words.len() == 2 + 2 * instructions as usize + 9 * blocks as usize
}

fn fits_instruction(words: &[u32], place: u32) -> bool
    ensures { result ≡ well_formed_at words.now place }
{
    let (first, second) = words_at(words, place);
    is_well_formed(first, second)
}

fn is_code(words: &[u32], instructions: u32) -> bool
    ensures { result ≡ every instructions (well_formed_at words.now) }
{
    (0..instructions).all(|place| fits_instruction(words, place))
}

fn fits_code(words: &[u32]) -> bool
    ensures { result ≡ code_fits words.now }
{
    is_measured(words) && is_code(words, instruction_count(words))
}

// The module that the words are laid out as, or the first fault of its layout: length, counts,
// operations and fields first, and then the blocks in their order.
pub fn examine(words: &[u32]) -> Result<Module<'_>, LayoutFault>
    ensures { Examined words.now result }
{
    if !fits_code(words) {
        return Err(LayoutFault::Malformed);
    }
    let layout = Layout::new(words);
    let blocks = block_count(words);
    match (0..blocks).find(|block| !layout.fits_block(*block)) {
        Some(block) => Err(LayoutFault::Block(block)),
        None => Ok(Module { layout, blocks }),
    }
}
