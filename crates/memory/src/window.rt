// A window over any memory.
ghost use Rattle.std.specs.Prelude.{◌≡◌, ℕ, ◌+◌, ◌^◌, ◌<◌, ◌≤◌, cond, ◌&&◌, MatchResult};
ghost use Rattle.std.specs.Bool.{then_some};
ghost use Rattle.memory.specs.Cells.{inside, windowed};

use crate::{Memory, NotWritable};

// One past the last address.
const END: u64 = 1 << 32;

// A part of a memory, which does not pass the last address: address a below the length is start + a underneath; every
// other address reads as 0 and is not writable.
#[derive(Drop)]
pub struct Window<M: Memory> {
    under: M,
    start: u64,
    length: u64,
    ghost fits: { start + length ≤ 2 ^ 32 },
}

// A window that would pass the last address is refused; the memory comes back.
#[derive(Drop)]
pub struct BadWindow<M> {
    pub memory: M,
}

impl<M> BadWindow<M> {
    // The number by which hosts know the refusal.
    // Stays (1): a rule of the project: the format has numbers for refusals.
    pub fn number(&self) -> u32
        ensures { result ≡ 12 }
    {
        12
    }
}

impl<M: Memory> Window<M> {
    // The window, exactly where start + length does not pass the last address.
    pub fn new(under: M, start: u64, length: u64) -> Result<Window<M>, BadWindow<M>>
        ensures { MatchResult result (λ w. (start + length ≤ 2 ^ 32) × (w.under ≡ under) × (w.start ≡ start) × (w.length ≡ length)) (λ e. (2 ^ 32 < start + length) × (e.memory ≡ under)) }
    {
        if start > END || length > END - start {
            return Err(BadWindow { memory: under });
        }
        Ok(Window {
            under,
            start,
            length,
        })
    }

    // The address underneath, if this one is in the window.
    fn beneath(&self, address: u32) -> Option<u32>
        ensures { result ≡ then_some (inside self.now.start self.now.length address) (self.now.start + address) }
    {
        let at = u64::from(address);
        (at < self.length).then(|| (self.start + at) as u32)
    }

    // Ends the window, and hands the memory back.
    pub fn into_under(self) -> M
        ensures { result ≡ self.under }
    {
        self.under
    }
}

impl<M: Memory> Memory for Window<M> {
    ghost cells = { λ w. windowed (M.Memory.cells w.under) w.start w.length };

    fn load(&mut self, address: u32) -> u32 {
        // Stays (4): tried `map_or`, the proof didn't close: what a closure leaves of the memory is not known.
        match self.beneath(address) {
            Some(at) => self.under.load(at),
            None => 0,
        }
    }

    fn store(&mut self, address: u32, value: u32) -> Result<(), NotWritable> {
        let at = self.beneath(address).ok_or(NotWritable)?;
        self.under.store(at, value)
    }
}
