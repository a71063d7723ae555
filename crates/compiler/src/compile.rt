// Compiling a text.
ghost use Rattle.std.specs.Prelude.{◌≡◌, ◌<◌, ◌≤◌, length, IfOk, Err, OnErr};
ghost use Rattle.language.specs.Plans.{Plan as Tree, done};
ghost use Rattle.plan.specs.Reads.{Holds};
ghost use Rattle.compiler.specs.Compiling.{Built, Compiles, Judges};
ghost use Rattle.compiler.specs.Selecting.{Small};
ghost use Rattle.compiler.specs.declared.fault.CompileFault.TheVariants.{LongText, ShortOutput};

use crate::expression::HALVES;
use crate::fault::CompileFault;
use crate::half::Half;
use crate::judge::{first_wide, too_large, too_long, too_short, widest};
use crate::lines::Lines;
use crate::tables::Compiler;
use crate::twin::Twin;
use crate::width::measure;
use crate::write::write_module;
use plan::limits::TEXT;
use plan::reader::Reader;
use std::alloc::{AllocError, Global};

impl Compiler {
    // A compiler with room for the longest text and the largest module.
    pub fn new(heap: Global) -> Result<Compiler, AllocError>
        ensures plan { IfOk result (λ x. Holds x.reader.plan done) }
        ensures widest { IfOk result (λ x. x.widest ≡ 0) }
    {
        let reader = Reader::new(heap)?;
        let widths = Vec::with_capacity(heap, TEXT)?;
        // Slots for the nodes of which a part of the code is still to come, whatever they hold at first.
        let halves = vec![in heap; Half::Load(Twin { number: 0 }); HALVES]?;
        let lines = Lines::new(heap)?;
        Ok(Compiler {
            reader,
            widths,
            halves,
            lines,
            widest: 0,
        })
    }

    // The first fault of a text for an output of so many words: its length, the output's, what the
    // reader finds, the widths, and the size of the whole.
    fn judge(&mut self, text: &[u8], room: usize) -> Result<(), CompileFault>
        ensures judges { Judges text.now room self.new.reader.plan self.new.widest result }
        ensures long { 8192 < length text.now → result ≡ Err LongText }
        ensures short { length text.now ≤ 8192 → room < 2626 → result ≡ Err ShortOutput }
    {
        if too_long(text) {
            return Err(CompileFault::LongText);
        }
        if too_short(room) {
            return Err(CompileFault::ShortOutput);
        }
        self.reader.read(text)?;
        let plan = self.reader.plan();
        measure(&mut self.widths, plan);
        if let Some(place) = first_wide(&self.widths, plan) {
            return Err(CompileFault::Wide(place));
        }
        if too_large(plan) {
            return Err(CompileFault::Large);
        }
        self.widest = widest(&self.widths, plan);
        Ok(())
    }

    // Writes the module of the plan that was read, which is judged before; answers the number of its
    // words.
    // Stays (6): a rule of the project: the caller owns the module's words.
    fn build(&mut self, out: &mut [u32]) -> usize
        requires small { (P : Tree) × Small self.old.reader.plan.nodes.items self.old.reader.plan.statements.items P }
        requires room { 2626 ≤ length out.old }
        ensures kept { self.new.reader ≡ self.old.reader }
        ensures widest { self.new.widest ≡ self.old.widest }
        ensures built { (P : Tree) → Small self.old.reader.plan.nodes.items self.old.reader.plan.statements.items P → Built P out.old out.new result }
    {
        let plan = self.reader.plan();
        self.lines.select(self.halves.as_mut_slice(), plan.nodes(), plan.statements());
        write_module(out, &self.lines)
    }

    // Compiles a text: writes the words of a module to the output, leaves the rest of it, and answers
    // their number; or names the first fault, and writes nothing.
    // Stays (6): a rule of the project: the caller owns the module's words.
    pub fn compile(&mut self, text: &[u8], out: &mut [u32]) -> Result<usize, CompileFault>
        ensures compiles { Compiles text.now out.old out.new self.new.reader.plan self.new.widest result }
        ensures kept { OnErr result (out.new ≡ out.old) }
        ensures long { 8192 < length text.now → result ≡ Err LongText }
        ensures short { length text.now ≤ 8192 → length out.old < 2626 → result ≡ Err ShortOutput }
    {
        self.judge(text, out.len())?;
        Ok(self.build(out))
    }
}
