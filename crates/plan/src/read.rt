// Reading a whole text.
ghost use Rattle.std.specs.Prelude.{◌≡◌, [], take, IfOk};
ghost use Rattle.stack.specs.Items.{items};
ghost use Rattle.grammar.proofs.Acceptor.{top, plain};
ghost use Rattle.plan.specs.Lining.{ShowsIn, Ready, LinesTell};
ghost use Rattle.plan.specs.Reads.{Holds, Reads};
ghost use Rattle.language.specs.Plans.{done};

use crate::fault::ReadFault;
use crate::limits::REPEATS;
use crate::reader::Reader;
use crate::repeats::OpenRepeat;
use crate::tables::Plan;
use marks::text::Marks;
use stack::slots::Stack;
use std::alloc::{AllocError, Global};

impl Reader {
    // A reader with room for the marks, nodes and statements of the longest text.
    pub fn new(heap: Global) -> Result<Reader, AllocError>
        ensures { IfOk result (λ x. Holds x.plan done) }
    {
        let marks = Marks::new(heap)?;
        let plan = Plan::new(heap)?;
        Ok(Reader { marks, at: 0, plan })
    }

    // The plan of the text that was read last.
    pub fn plan(&self) -> &Plan
        ensures { result.now ≡ self.now.plan }
    {
        &self.plan
    }

    // Reads all marks.
    fn lines(&mut self, repeats: &mut Stack<'_, OpenRepeat>) -> Result<(), ReadFault>
        requires ready { Ready self.old repeats.old }
        requires empty { ShowsIn self.old (items repeats.old) (top plain) }
        requires none { items repeats.old ≡ [] }
        ensures { LinesTell self.old self.new result }
    {
        while let Some(mark) = self.peek() {
            self.line(mark, repeats)?;
        }
        let end = self.place()?;
        if repeats.len() > 0 {
            return Err(ReadFault::Grammar(end));
        }
        Ok(())
    }

    // Reads a text; of one over 8,192 bytes, the first 8,192. After a fault the plan is empty.
    pub fn read(&mut self, text: &[u8]) -> Result<(), ReadFault>
        ensures { Reads (take 8192 text.now) self.new.plan result }
    {
        self.marks.scan(text);
        self.plan.clear();
        self.at = 0;
        // Stays (6): a rule of the project: the stack of open REPEATs lies over lent slots.
        let mut slots = [OpenRepeat::default(); REPEATS];
        let read = self.lines(&mut Stack::new(&mut slots));
        if read.is_err() {
            self.plan.clear();
        }
        read
    }
}
