// The code that a run steps through.
ghost use Rattle.std.specs.Prelude.{◌≤◌, vec_len, vec_capacity};

use isa::instruction::Instruction;

pub mod filling;

// A store of instructions with room for 1,024, the most that a module has.
#[derive(Drop)]
pub struct Code {
    instructions: Vec<Instruction>,
    ghost small: { vec_len instructions ≤ 1024 },
    ghost room: { 1024 ≤ vec_capacity instructions },
}
