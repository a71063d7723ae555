// The check of modules.
ghost use Rattle.std.specs.Prelude.{◌≤◌, vec_capacity};
ghost use Rattle.rules.specs.Limits.{in_force};

use blocks::state::State;
use isa::card::Block;

// Room for the check of any module, made once.
#[derive(Drop)]
pub struct Checker {
    state: State,
    blocks: Vec<Block>,
    ghost room: { in_force.blocks ≤ vec_capacity blocks },
}

mod modules;
