// Filling and reading the code store.
ghost use Rattle.std.specs.Prelude.{◌≡◌, ◌<◌, ◌≤◌, [], ◌∷◌, ◌++◌, length, IfOk, IfErr, if◌then◌else◌, is_ok, MatchOption, nat_lt, slice_index_or};
ghost use Rattle.isa.specs.declared.kinds.Kind.TheVariants.{Halt};
ghost use Rattle.machine.specs.Views.{kinds};

use super::Code;
use isa::instruction::Instruction;
use isa::limits::INSTRUCTIONS;
use std::alloc::{AllocError, Global};

impl Code {
    // An empty store, with all the room that it will ever need.
    pub fn new(heap: Global) -> Result<Code, AllocError>
        ensures { IfOk result (λ c. kinds c ≡ []) }
    {
        let instructions = Vec::with_capacity(heap, INSTRUCTIONS as usize)?;
        Ok(Code { instructions })
    }

    pub fn clear(&mut self)
        ensures { kinds self.new ≡ [] }
    {
        self.instructions.clear();
    }

    // Adds an instruction, or hands it back where there are 1,024.
    pub fn push(&mut self, instruction: Instruction) -> Result<(), Instruction>
        ensures room { is_ok result ≡ nat_lt (length (kinds self.old)) 1024 }
        ensures after { kinds self.new ≡ (if is_ok result then kinds self.old ++ (instruction.kind ∷ []) else kinds self.old) }
        ensures back { IfErr result (λ i. i ≡ instruction) }
    {
        if self.len() >= INSTRUCTIONS as usize {
            return Err(instruction);
        }
        self.instructions.push_reserved(instruction);
        Ok(())
    }

    pub fn len(&self) -> usize
        ensures { result ≡ length (kinds self.now) }
    {
        self.instructions.len()
    }

    // The instruction with this number.
    pub fn get(&self, place: usize) -> Option<Instruction>
        ensures few { length (kinds self.now) ≤ 1024 }
        ensures cases { MatchOption result (length (kinds self.now) ≤ place) (λ i. (place < length (kinds self.now)) × (i.kind ≡ slice_index_or (kinds self.now) place Halt)) }
    {
        self.instructions.get(place).copied()
    }
}
