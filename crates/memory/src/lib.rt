// Cell memories: what every memory promises, and the kinds that come with the product.
#![tactic(auto)]

ghost use Rattle.std.specs.Prelude.{◌≡◌, ℕ, length, is_ok, nat_lt, slice_index};
ghost use Rattle.memory.specs.Cells.{Cells, stored};

pub mod window;

// A store at an address that is not writable.
#[derive(Clone, Copy, Debug, PartialEq, Eq)]
pub struct NotWritable;

// A memory of 32-bit words. Its meaning is the word at each address and which addresses are
// writable; the latter never changes. Loads and stores take `&mut self`, so that a memory of a
// host's own may cache, page or count: what a load keeps is the meaning, not the value.
pub trait Memory {
    ghost cells: { Self → Cells };

    // The word at the address; the meaning stays.
    fn load(&mut self, address: u32) -> u32
        ensures value { result ≡ (cells self.old).word address }
        ensures same { cells self.new ≡ cells self.old };

    // Replaces the word at the address; refused, with nothing altered, exactly where it is not writable.
    fn store(&mut self, address: u32, value: u32) -> Result<(), NotWritable>
        ensures test { is_ok result ≡ (cells self.old).writable address }
        ensures after { cells self.new ≡ stored (cells self.old) address value };
}

// Words lent by the host. An address below their number is writable; every other one reads as 0.
#[derive(Drop)]
pub struct ArrayMemory<'a> {
    pub words: &'a mut [u32],
}

impl Memory for ArrayMemory<'_> {
    ghost cells = { λ m. record { word = λ at. slice_index m.words.now at; writable = λ at. nat_lt at (length m.words.now) } };

    fn load(&mut self, address: u32) -> u32 {
        // Lent on under a name: behind a field's own `get` nothing would be known of the words.
        let words = &mut *self.words;
        words.get(address as usize).copied().unwrap_or(0)
    }

    fn store(&mut self, address: u32, value: u32) -> Result<(), NotWritable> {
        // Stays (4): tried `get_mut`, the proof didn't close: once a slice's word was lent, nothing is known of its words.
        let at = address as usize;
        if at < self.words.len() {
            self.words[at] = value;
            Ok(())
        } else {
            Err(NotWritable)
        }
    }
}

// A memory that is lent is a memory.
impl<M: Memory> Memory for &mut M {
    ghost cells = { λ m. M.Memory.cells m.now };

    fn load(&mut self, address: u32) -> u32 {
        (**self).load(address)
    }

    fn store(&mut self, address: u32, value: u32) -> Result<(), NotWritable> {
        (**self).store(address, value)
    }
}
