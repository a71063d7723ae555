// How many parentheses and brackets are open while a text is read.
ghost use Rattle.std.specs.Prelude.{◌≡◌, ◌+◌, ◌<◌, nat_le};

use crate::limits::NESTING;

#[derive(Drop)]
pub struct Nesting {
    pub(crate) depth: u8,
}

impl Nesting {
    // Whether no more may be open.
    pub(crate) fn is_full(&self) -> bool
        ensures { result ≡ nat_le 16 self.now.depth }
    {
        self.depth >= NESTING
    }
}

// Stands for one open parenthesis or bracket; its end restores the count, however it is left.
// Stays (6): no plainer: over the whole reader, each of the reader's methods would have to say that it
// leaves the count as it is.
pub struct Nest<'a> {
    pub(crate) nesting: &'a mut Nesting,
    pub(crate) before: u8,
}

impl<'a> Nest<'a> {
    pub(crate) fn enter(nesting: &'a mut Nesting) -> Nest<'a>
        requires { nesting.old.depth < 16 }
        ensures deeper { result.nesting.now.depth ≡ nesting.old.depth + 1 }
        ensures before { result.before ≡ nesting.old.depth }
        ensures lent { result.nesting.ghost_name ≡ nesting.entry.ghost_name }
    {
        let before = nesting.depth;
        nesting.depth = before + 1;
        Nest { nesting, before }
    }
}

impl Drop for Nest<'_> {
    fn drop(self)
        ensures { self.exit.0.now.depth ≡ self.entry.before }
    {
        self.nesting.depth = self.before;
        let Nest {
            nesting: _,
            before: _,
        } = self;
    }
}
