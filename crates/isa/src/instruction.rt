ghost use Rattle.std.specs.Prelude.{◌≤◌};
ghost use Rattle.isa.specs.Registers.{registers};

use crate::kinds::Kind;

// An instruction, which names only registers that there are.
#[derive(Clone, Copy, Debug, PartialEq, Eq)]
pub struct Instruction {
    pub kind: Kind,
    ghost low: { registers kind ≤ 32 },
}
