// The words of a module.
ghost use Rattle.std.specs.Prelude.{◌≡◌, ℕ, ◌+◌, ◌*◌, ◌^◌, ◌<◌, ◌≤◌, length, vec_len, take};
ghost use Rattle.rules.specs.Words.{module_of};
ghost use Rattle.translation.specs.Code.{build};
ghost use Rattle.translation.specs.Written.{Written};
ghost use Rattle.compiler.specs.Selecting.{code_in};
ghost use Rattle.compiler.specs.Stages.{Laid};
ghost use Rattle.memory.specs.Cells.{replaced};
ghost use Rattle.compiler.specs.Cards.{twin_bytes};
ghost use Rattle.compiler.specs.Laying.{words, placed, carded, blocked, entered, lined, opens, Back};
ghost use Rattle.compiler.specs.Doubling.{dye};
ghost use Rattle.compiler.specs.Writing.{laid, Writes};
ghost use Rattle.isa.specs.declared.kinds.Colour.TheVariants.{Green, Blue};

use crate::double::half;
use crate::line::Line;
use crate::lines::Lines;
use crate::writer::Writer;
use isa::encode::encode;
use isa::instruction::Instruction;
use isa::kinds::{Colour, Kind};

// What a card that gives the first so many twins a variable each says of a twin: the variable with
// the twin's number, in both colours. As the bytes of its two registers, in the low half of a word.
fn twin_bytes(twins: u8, twin: u8) -> u32
    ensures { result ≡ twin_bytes twins twin }
{
    if twin < twins {
        (twin as u32 + 1) * 0x100 + (twin as u32 + 129)
    } else {
        0
    }
}

// The k-th word of such a card, for twins 2k and 2k + 1.
fn card_word(twins: u8, k: u8) -> u32
    requires { k < 8 }
    ensures { result ≡ twin_bytes twins (2 * k) * 2 ^ 16 + twin_bytes twins (2 * k + 1) }
{
    twin_bytes(twins, 2 * k) * 0x1_0000 + twin_bytes(twins, 2 * k + 1)
}

impl Writer<'_> {
    fn put(&mut self, at: usize, word: u32)
        requires { at < 2626 }
        ensures { Writes self.old self.new (replaced (laid self.old) at word) self.old.blocks }
    {
        self.out[at] = word;
    }

    fn put_instruction(&mut self, place: u32, instruction: Instruction)
        requires { place < 1024 }
        ensures writes { Writes self.old self.new (placed (laid self.old) place instruction.kind) self.old.blocks }
        ensures back { Back instruction.kind }
    {
        let (first, second) = encode(instruction);
        let at = 2 + 2 * place as usize;
        self.put(at, first);
        self.put(at + 1, second);
    }

    // A card from an index on.
    fn put_card(&mut self, at: usize, twins: u8)
        requires { at + 8 ≤ 2626 }
        ensures { Writes self.old self.new (carded (laid self.old) at twins 8) self.old.blocks }
    {
        for k in 0..8u8 {
            self.put(at + k as usize, card_word(twins, k));
        }
    }

    // One block more: its start and card.
    fn put_block(&mut self, start: u32, twins: u8)
        requires { self.old.blocks < 64 }
        ensures { Writes self.old self.new (blocked (laid self.old) self.old.instructions self.old.blocks start twins) (self.old.blocks + 1) }
    {
        let at = 2 + 2 * self.instructions as usize + 9 * self.blocks as usize;
        self.put(at, start);
        self.put_card(at + 1, twins);
        self.blocks += 1;
    }

    // The block that starts before this place, if one does.
    fn put_entry(&mut self, place: u32, entry: Option<u8>)
        requires { self.old.blocks + opens entry ≤ 64 }
        ensures { Writes self.old self.new (entered (laid self.old) self.old.instructions self.old.blocks place entry) (self.old.blocks + opens entry) }
    {
        if let Some(twins) = entry {
            self.put_block(place, twins);
        }
    }

    // A line's block, if it starts one, and its two instructions.
    fn put_line(&mut self, at: usize, line: Line)
        requires inside { 2 * at + 1 < self.old.instructions }
        requires few { self.old.blocks + opens line.entry ≤ 64 }
        ensures writes { Writes self.old self.new (lined (laid self.old) self.old.instructions self.old.blocks at line) (self.old.blocks + opens line.entry) }
        ensures green { Back (dye Green line.single) }
        ensures blue { Back (dye Blue line.single) }
    {
        let place = 2 * at as u32;
        self.put_entry(place, line.entry);
        self.put_instruction(place, half(Colour::Green, line.single));
        self.put_instruction(place + 1, half(Colour::Blue, line.single));
    }

    // The instructions and the blocks of the doubled lines with a halt behind them.
    fn put_code(&mut self, code: &Lines)
        requires none { self.old.blocks ≡ 0 }
        requires instructions { self.old.instructions ≡ 2 * vec_len code.now.lines + 1 }
        requires few { length (build (code_in code.now)).blocks ≤ 64 }
        ensures writes { Writes self.old self.new (laid self.new) self.new.blocks }
        ensures stage { Laid self.old.instructions (build (code_in code.now)) (laid self.old) (laid self.new) self.new.blocks }
    {
        for (i, &line) in code.lines.iter().enumerate() {
            self.put_line(i, line);
        }
        let last = self.instructions - 1;
        self.put_entry(last, code.entry);
        self.put_instruction(last, Instruction { kind: Kind::Halt });
    }
}

// The module of the doubled lines with a halt behind them; answers how many words it has.
// Stays (6): a rule of the project: the caller owns the module's words.
pub fn write_module(out: &mut [u32], code: &Lines) -> usize
    requires few { length (build (code_in code.now)).blocks ≤ 64 }
    requires room { 2626 ≤ length out.old }
    ensures len { length out.new ≡ length out.old }
    ensures count { result ≡ 2 + 2 * (2 * vec_len code.now.lines + 1) + 9 * length (build (code_in code.now)).blocks }
    ensures reads { module_of (take result out.new) ≡ build (code_in code.now) }
    ensures written { Written (take result out.new) (build (code_in code.now)) }
    ensures rest { (j : ℕ) → result ≤ j → words out.new j ≡ words out.old j }
{
    let instructions = 2 * code.lines.len() as u32 + 1;
    let mut writer = Writer {
        out,
        instructions,
        blocks: 0,
    };
    writer.put_code(code);
    let blocks = writer.blocks;
    writer.put(0, instructions);
    writer.put(1, blocks);
    2 + 2 * instructions as usize + 9 * blocks as usize
}
