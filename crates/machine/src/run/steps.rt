// The steps of a run.
ghost use Rattle.std.specs.Prelude.{◌≡◌, ℕ, ◌+◌, ◌-◌, ◌<◌, ◌≤◌, min, true, None};
ghost use Rattle.memory.specs.Cells.{Cells};
ghost use Rattle.isa.specs.Registers.{registers};
ghost use Rattle.machine.specs.Ends.{going?};
ghost use Rattle.machine.specs.Machine.{started, seen, commit, exec, act, step, after, settled};
ghost use Rattle.machine.specs.Laws.{Lawful};
ghost use Rattle.machine.specs.Views.{state_of, run_of, kinds, queued, onward, came};

use super::Run;
use crate::code::Code;
use crate::ends::{End, Report};
use crate::latches::Latches;
use crate::queue::Pair;
use isa::kinds::{Colour, Kind};
use memory::Memory;

// The most steps that a run takes.
pub const MOST_STEPS: u32 = 1_000_000_000;

impl Latches {
    // What a load of this colour sees at an address.
    fn look<M: Memory>(&self, colour: Colour, address: u32, memory: &mut M) -> u32
        ensures value { result ≡ seen colour (queued self.now.queue) (M.Memory.cells memory.old).word address }
        ensures same { M.Memory.cells memory.new ≡ M.Memory.cells memory.old }
    {
        match colour {
            // Stays (4): tried `unwrap_or_else`, the proof didn't close: what a closure leaves of the memory is not known.
            Colour::Green => match self.queue.find(address) {
                Some(word) => word,
                None => memory.load(address),
            },
            Colour::Blue => memory.load(address),
        }
    }
}

impl Run {
    pub fn start() -> Run
        ensures { (c : Cells) → run_of result c ≡ started c.word }
    {
        Run {
            latches: Latches::start(),
            end: End::Going,
            steps: 0,
            stores: 0,
        }
    }

    // Blue's store: it must be the oldest queued pair, which leaves the queue as it is made.
    fn commit<M: Memory>(&mut self, pair: Pair, memory: &mut M) -> Result<(), End>
        requires few { self.old.stores < self.old.steps }
        ensures does { came (λ _. onward self.old.latches None) (λ e. e) result (state_of self.new (M.Memory.cells memory.new)) ≡ settled (state_of self.old (M.Memory.cells memory.old)) (commit (M.Memory.cells memory.old).writable (state_of self.old (M.Memory.cells memory.old)) pair.address pair.word) }
        ensures same { (M.Memory.cells memory.new).writable ≡ (M.Memory.cells memory.old).writable }
        ensures steps { self.new.steps ≡ self.old.steps }
    {
        let oldest = self.latches.queue.oldest().ok_or(Report::Queue)?;
        if oldest != pair {
            return Err(Report::StoreDiffers.into());
        }
        memory.store(pair.address, pair.word)?;
        self.stores += 1;
        self.latches.queue.pop();
        Ok(())
    }

    // What an instruction does; answers the place to which it leads: None for the next one.
    fn exec<M: Memory>(&mut self, kind: Kind, memory: &mut M) -> Result<Option<u32>, End>
        requires low { registers kind ≤ 32 }
        requires few { self.old.stores < self.old.steps }
        ensures does { came (onward self.old.latches) (λ e. e) result (state_of self.new (M.Memory.cells memory.new)) ≡ settled (state_of self.old (M.Memory.cells memory.old)) (exec (M.Memory.cells memory.old).writable kind (state_of self.old (M.Memory.cells memory.old))) }
        ensures same { (M.Memory.cells memory.new).writable ≡ (M.Memory.cells memory.old).writable }
        ensures steps { self.new.steps ≡ self.old.steps }
    {
        match kind {
            Kind::Move(_, a, word) => self.latches.set(a, word),
            Kind::Copy(a, b) => {
                let word = self.latches.read(b);
                self.latches.set(a, word);
            }
            Kind::Arith(operation, a, b, c) => {
                let word = operation.apply(self.latches.read(b), self.latches.read(c));
                self.latches.set(a, word);
            }
            Kind::Load(colour, a, b) => {
                let address = self.latches.read(b);
                let word = self.latches.look(colour, address, memory);
                self.latches.set(a, word);
            }
            Kind::Store(colour, a, b) => {
                let address = self.latches.read(a);
                let word = self.latches.read(b);
                let pair = Pair { address, word };
                match colour {
                    Colour::Green => self.latches.enqueue(pair)?,
                    Colour::Blue => self.commit(pair, memory)?,
                }
            }
            Kind::Jump(colour, a) => {
                let to = self.latches.read(a);
                return Ok(self.latches.jump(colour, to)?);
            }
            Kind::Branch(colour, a, b) => {
                let word = self.latches.read(a);
                let to = self.latches.read(b);
                return Ok(self.latches.branch(colour, word, to)?);
            }
            Kind::Halt => return Err(self.latches.halt()),
        }
        Ok(None)
    }

    // One step: the instruction that both counters name.
    fn step<M: Memory>(&mut self, code: &Code, memory: &mut M) -> Result<(), End>
        requires { self.old.steps < 1000000000 }
        ensures does { came (λ _ s. s) (λ e. e) result (state_of self.new (M.Memory.cells memory.new)) ≡ settled (state_of self.old (M.Memory.cells memory.old)) (act (M.Memory.cells memory.old).writable (kinds code.now) (state_of self.old (M.Memory.cells memory.old))) }
        ensures same { (M.Memory.cells memory.new).writable ≡ (M.Memory.cells memory.old).writable }
        ensures count { self.new.steps ≡ self.old.steps + 1 }
    {
        self.steps += 1;
        let place = self.latches.green;
        if place != self.latches.blue {
            return Err(Report::CountersDiffer.into());
        }
        let instruction = code.get(place as usize).ok_or(Report::Outside)?;
        match self.exec(instruction.kind, memory)? {
            Some(to) => self.latches.go(to),
            None => self.latches.go(place + 1),
        }
        Ok(())
    }

    // How many of n more steps it may take.
    fn allowed(&self, n: u32) -> u32
        ensures { result ≡ min n (1000000000 - self.now.steps) }
    {
        n.min(MOST_STEPS - self.steps)
    }

    // Steps until n are done or an end comes, and answers how many it took. A run takes
    // 1,000,000,000 steps at most: of those that would pass that number none is taken.
    pub fn advance<M: Memory>(&mut self, code: &Code, memory: &mut M, n: u32) -> u32
        ensures does { run_of self.new (M.Memory.cells memory.new) ≡ after (M.Memory.cells memory.old).writable (kinds code.now) (run_of self.old (M.Memory.cells memory.old)) (min n (1000000000 - self.old.steps)) }
        ensures same { (M.Memory.cells memory.new).writable ≡ (M.Memory.cells memory.old).writable }
        ensures taken { self.old.steps + result ≡ self.new.steps }
        ensures laws { Lawful (M.Memory.cells memory.old).writable (kinds code.now) (run_of self.old (M.Memory.cells memory.old)) }
    {
        let most = self.allowed(n);
        for taken in 0..most {
            if !self.end.is_going() {
                return taken;
            }
            self.end = self.step(code, memory).err().unwrap_or(End::Going);
        }
        most
    }
}
