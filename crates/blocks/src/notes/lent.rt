// Notes read, and one lent to be changed.
ghost use Rattle.std.specs.Prelude.{◌≡◌, ◌<◌, replicate, None, IfOk, slice_index_or};
ghost use Rattle.std.specs.Borrow.{sem};
ghost use Rattle.blocks.specs.Lending.{LendsNote};

use super::Notes;
use crate::note::Note;
use isa::kinds::Register;
use std::alloc::{AllocError, Global};

impl Notes {
    // Nothing is known of any register.
    pub(crate) fn new(heap: Global) -> Result<Notes, AllocError>
        ensures { IfOk result (λ n. n.all.items ≡ replicate 32 None) }
    {
        let all = vec![in heap; None; 32]?;
        Ok(Notes { all })
    }

    pub(crate) fn clear(&mut self)
        ensures { self.new.all.items ≡ replicate 32 None }
    {
        self.all.fill(None);
    }

    pub(crate) fn note(&self, r: Register) -> Note
        requires lowr { r.number < 32 }
        ensures { result ≡ slice_index_or self.now.all.items r.number None }
    {
        self.all[r.number as usize]
    }

    // Lends the note of a register.
    pub(crate) fn note_mut(&mut self, r: Register) -> &mut Note
        requires lowr { r.number < 32 }
        ensures* { sem 𝓛 (LendsNote self.entry r result) }
    {
        &mut self.all[r.number as usize]
    }
}
