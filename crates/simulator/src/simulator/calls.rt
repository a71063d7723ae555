// The calls of a simulator.
ghost use Rattle.std.specs.Prelude.{◌≡◌, true, false, Some, IfSome, MatchResult};
ghost use Rattle.machine.specs.Ends.{going?};
ghost use Rattle.rules.specs.Words.{module_of};
ghost use Rattle.checker.specs.Passing.{words_of};
ghost use Rattle.simulator.specs.Calls.{loads, puts, runs, strikes, looks, probes, shows, clears};
ghost use Rattle.simulator.specs.Model.{fresh, model};

use super::Simulator;
use crate::fill::fill_code;
use crate::latch::{read, write};
use crate::place::Place;
use crate::refusal::Refusal;
use checker::pass::Pass;
use machine::code::Code;
use machine::ends::End;
use machine::run::Run;
use machine::run::steps::MOST_STEPS;
use memory::Memory;
use std::alloc::Global;

// Steps of one call of run.
const MOST_AT_ONCE: u32 = 1_000_000;

// What `show` answers.
#[derive(Clone, Copy, Debug, PartialEq, Eq)]
pub struct Shown {
    pub end: End,
    pub steps: u32,
    pub stores: u32,
}

impl<M: Memory> Simulator<M> {
    // An idle simulator, with room for the largest module; without memory for that, hands the memory back.
    pub fn new(heap: Global, memory: M) -> Result<Simulator<M>, M>
        ensures { MatchResult result (λ s. model M.Memory.cells s ≡ fresh (M.Memory.cells memory)) (λ m. m ≡ memory) }
    {
        let Ok(code) = Code::new(heap) else {
            return Err(memory);
        };
        Ok(Simulator {
            memory,
            code,
            run: None,
        })
    }

    // Loads the module of a pass, which stays good.
    pub fn load(&mut self, pass: &Pass) -> Result<(), Refusal>
        ensures answer { result ≡ (loads (module_of (words_of pass.now)).code (model M.Memory.cells self.old)).0 }
        ensures after { model M.Memory.cells self.new ≡ (loads (module_of (words_of pass.now)).code (model M.Memory.cells self.old)).1 }
    {
        if self.run.is_some() {
            return Err(Refusal::NotIdle);
        }
        fill_code(&mut self.code, pass.words());
        self.run = Some(Run::start());
        Ok(())
    }

    // End, steps and store count.
    pub fn show(&self) -> Shown
        ensures { result ≡ shows (model M.Memory.cells self.now) }
    {
        match &self.run {
            Some(run) => Shown {
                end: run.end,
                steps: run.steps,
                stores: run.stores,
            },
            None => Shown {
                end: End::Going,
                steps: 0,
                stores: 0,
            },
        }
    }

    // The run that is under way and goes on: a copy, which its callers put back.
    // Stays (4): tried a `&mut` into the option, the proof didn't close: what the option holds after the loan stays open.
    fn going(&self) -> Result<Run, Refusal>
        ensures { MatchResult result (λ x. (self.now.run ≡ Some x) × (going? x.end ≡ true)) (λ e. (e ≡ Refusal.NotUnderWay) × IfSome self.now.run (λ x. going? x.end ≡ false)) }
    {
        match &self.run {
            Some(run) if run.end.is_going() => Ok(*run),
            _ => Err(Refusal::NotUnderWay),
        }
    }

    // Steps until n are done or an end comes; answers the steps taken together with the end.
    pub fn run(&mut self, n: u32) -> Result<(u32, End), Refusal>
        ensures answer { result ≡ (runs n (model M.Memory.cells self.old)).0 }
        ensures after { model M.Memory.cells self.new ≡ (runs n (model M.Memory.cells self.old)).1 }
    {
        let mut run = self.going()?;
        if n == 0 || n > MOST_AT_ONCE {
            return Err(Refusal::BadCount);
        }
        if n > MOST_STEPS - run.steps {
            return Err(Refusal::TooManySteps);
        }
        let taken = run.advance(&self.code, &mut self.memory, n);
        self.run = Some(run);
        Ok((taken, run.end))
    }

    // Sets one latch, and answers how many of its bits changed.
    pub fn strike(&mut self, place: u32, value: u32) -> Result<u32, Refusal>
        ensures answer { result ≡ (strikes place value (model M.Memory.cells self.old)).0 }
        ensures after { model M.Memory.cells self.new ≡ (strikes place value (model M.Memory.cells self.old)).1 }
    {
        let mut run = self.going()?;
        let place = Place::try_from(place)?;
        let old = read(&run.latches, place).ok_or(Refusal::NoSuchPlace)?;
        write(&mut run.latches, place, value);
        self.run = Some(run);
        Ok((old ^ value).count_ones())
    }

    // Stores a word in a cell, before a load.
    pub fn put(&mut self, address: u32, word: u32) -> Result<(), Refusal>
        ensures answer { result ≡ (puts address word (model M.Memory.cells self.old)).0 }
        ensures after { model M.Memory.cells self.new ≡ (puts address word (model M.Memory.cells self.old)).1 }
    {
        if self.run.is_some() {
            return Err(Refusal::NotIdle);
        }
        self.memory.store(address, word)?;
        Ok(())
    }

    // The word at an address; a memory may cache while it is read, but its meaning stays.
    pub fn look(&mut self, address: u32) -> u32
        ensures answer { result ≡ looks address (model M.Memory.cells self.old) }
        ensures after { model M.Memory.cells self.new ≡ model M.Memory.cells self.old }
    {
        self.memory.load(address)
    }

    // One latch, under way or ended.
    pub fn probe(&self, place: u32) -> Result<u32, Refusal>
        ensures { result ≡ probes place (model M.Memory.cells self.now) }
    {
        let run = self.run.ok_or(Refusal::NotUnderWay)?;
        let place = Place::try_from(place)?;
        read(&run.latches, place).ok_or(Refusal::NoSuchPlace)
    }

    // Drops what is loaded.
    pub fn clear(&mut self) -> Result<(), Refusal>
        ensures answer { result ≡ (clears (model M.Memory.cells self.old)).0 }
        ensures after { model M.Memory.cells self.new ≡ (clears (model M.Memory.cells self.old)).1 }
    {
        if self.run.is_none() {
            return Err(Refusal::NotUnderWay);
        }
        self.run = None;
        Ok(())
    }

    // The memory, as the host may see it meanwhile.
    pub fn memory(&self) -> &M
        ensures { result.now ≡ self.now.memory }
    {
        &self.memory
    }

    // Ends the simulator, and hands the memory back.
    pub fn into_memory(self) -> M
        ensures { result ≡ self.memory }
    {
        self.memory
    }
}
