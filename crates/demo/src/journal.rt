// A memory of the host's own: one that remembers the last store.
use machine::queue::Pair;
use memory::{Memory, NotWritable};

// Any memory, with the last store into it.
#[derive(Drop)]
pub struct Journal<M: Memory> {
    pub under: M,
    pub last: Option<Pair>,
}

impl<M: Memory> Memory for Journal<M> {
    ghost cells = { λ m. M.Memory.cells m.under };

    fn load(&mut self, address: u32) -> u32 {
        self.under.load(address)
    }

    fn store(&mut self, address: u32, word: u32) -> Result<(), NotWritable> {
        self.last = Some(Pair { address, word });
        self.under.store(address, word)
    }
}
