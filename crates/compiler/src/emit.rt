// Lines of code over twin registers, emitted one by one.
ghost use Rattle.std.specs.Prelude.{◌≡◌, ◌<◌, [], Some, vec_len};
ghost use Rattle.translation.specs.Code.{set as set_twin};
ghost use Rattle.compiler.specs.Listing.{single_of, source_of};
ghost use Rattle.compiler.specs.Emitting.{Adds, Emits, one, begun};

use crate::line::{Line, Single, Source};
use crate::lines::{LINES, Lines};
use crate::twin::Twin;
use std::alloc::{AllocError, Global};

impl Lines {
    pub fn new(heap: Global) -> Result<Lines, AllocError> {
        let lines = Vec::with_capacity(heap, LINES + 1)?;
        Ok(Lines { lines, entry: None })
    }

    // No line, before the first block.
    pub fn clear(&mut self)
        ensures none { self.new.lines.items ≡ [] }
        ensures len { vec_len self.new.lines ≡ 0 }
        ensures entry { self.new.entry ≡ Some 0 }
    {
        self.lines.clear();
        self.entry = Some(0);
    }

    // One line more; nothing where there are as many as code may have.
    pub(crate) fn add(&mut self, single: Single)
        ensures { Emits self.old self.new (one (single_of single)) 1 }
    {
        if self.lines.len() < LINES {
            let entry = self.entry;
            self.lines.push_reserved(Line { entry, single });
            self.entry = None;
        }
    }

    // A block begins before the next line; its card gives the first so many twins a variable each.
    pub(crate) fn begin(&mut self, twins: u8)
        ensures { Adds self.old self.new (begun twins) 0 }
    {
        self.entry = Some(twins);
    }

    pub(crate) fn set(&mut self, twin: Twin, source: Source)
        ensures { Emits self.old self.new (one (set_twin twin.number (source_of source))) 1 }
    {
        self.add(Single::Set(twin, source));
    }
}
