// What the machine holds besides its cells, and what the instructions that touch no cell do to it.
ghost use Rattle.std.specs.Prelude.{◌≡◌, ℕ, ◌<◌, [], Some, None, slice_index};
ghost use Rattle.memory.specs.Cells.{replaced};
ghost use Rattle.machine.specs.Machine.{enqueue, aim, land, jump, branch, halt};
ghost use Rattle.machine.specs.Views.{queued, placed, with_registers, Moves, Turns};

use crate::ends::{End, Report};
use crate::queue::{Pair, Queue};
use isa::kinds::{Colour, Register};

// Registers, a counter for each colour, the destination of a jump under way, and the queue.
#[derive(Clone, Copy)]
pub struct Latches {
    pub registers: [u32; 32],
    pub green: u32,
    pub blue: u32,
    pub destination: u32,
    pub queue: Queue,
}

impl Latches {
    // All 0, the queue empty.
    pub fn start() -> Latches
        ensures registers { (k : ℕ) → slice_index result.registers k ≡ 0 }
        ensures counters { (result.green ≡ 0) × (result.blue ≡ 0) }
        ensures destination { result.destination ≡ 0 }
        ensures queue { queued result.queue ≡ [] }
    {
        Latches {
            registers: [0; 32],
            green: 0,
            blue: 0,
            destination: 0,
            queue: Queue::new(),
        }
    }

    pub(crate) fn read(&self, register: Register) -> u32
        requires { register.number < 32 }
        ensures { result ≡ slice_index self.now.registers register.number }
    {
        self.registers[register.number as usize]
    }

    pub(crate) fn set(&mut self, register: Register, word: u32)
        requires { register.number < 32 }
        ensures registers { (r : ℕ) → slice_index self.new.registers r ≡ replaced (λ k. slice_index self.old.registers k) register.number word r }
        ensures others { self.new ≡ with_registers self.old self.new.registers }
    {
        self.registers[register.number as usize] = word;
    }

    // Sets both counters.
    pub(crate) fn go(&mut self, place: u32)
        ensures { self.new ≡ placed self.old place }
    {
        self.green = place;
        self.blue = place;
    }

    // Green's store queues a pair.
    pub(crate) fn enqueue(&mut self, pair: Pair) -> Result<(), Report>
        ensures { Moves self.old self.new (λ _. None) result (λ s. enqueue s pair.address pair.word) }
    {
        self.queue.push(pair).map_err(|_| Report::Queue)
    }

    // Green's half of a jump: the destination must be clear.
    fn aim(&mut self, to: u32) -> Result<(), Report>
        ensures { Moves self.old self.new (λ _. None) result (λ s. aim s to) }
    {
        if self.destination != 0 {
            return Err(Report::Destination);
        }
        self.destination = to;
        Ok(())
    }

    // Blue's half of a jump: the destination must be set, and to the same.
    fn land(&mut self, to: u32) -> Result<(), Report>
        ensures { Moves self.old self.new (λ _. Some to) result (λ s. land s to) }
    {
        if self.destination == 0 || self.destination != to {
            return Err(Report::Destination);
        }
        self.destination = 0;
        Ok(())
    }

    // Answers the place to which the jump leads: None for the next one, as after green's half.
    pub(crate) fn jump(&mut self, colour: Colour, to: u32) -> Result<Option<u32>, Report>
        ensures { Moves self.old self.new (λ at. at) result (λ s. jump colour s to) }
    {
        match colour {
            Colour::Green => {
                self.aim(to)?;
                Ok(None)
            }
            Colour::Blue => {
                self.land(to)?;
                Ok(Some(to))
            }
        }
    }

    // A jump where the word is 0.
    pub(crate) fn branch(
        &mut self,
        colour: Colour,
        word: u32,
        to: u32,
    ) -> Result<Option<u32>, Report>
        ensures { Moves self.old self.new (λ at. at) result (λ s. branch colour s word to) }
    {
        if word == 0 {
            self.jump(colour, to)
        } else {
            self.aim(0)?;
            Ok(None)
        }
    }

    pub(crate) fn halt(&self) -> End
        ensures { Turns self.now self.now result halt }
    {
        if self.destination != 0 {
            return End::Reported(Report::Destination);
        }
        if self.queue.len() != 0 {
            return End::Reported(Report::Queue);
        }
        End::Halted
    }
}
