// A run of the machine, over code and a memory that are kept elsewhere.
ghost use Rattle.std.specs.Prelude.{◌≤◌};

use crate::ends::End;
use crate::latches::Latches;

pub mod steps;

// The latches, how the run stands, and the numbers of its steps and of the stores that it made.
#[derive(Clone, Copy)]
pub struct Run {
    pub latches: Latches,
    pub end: End,
    pub steps: u32,
    pub stores: u32,
    ghost few: { stores ≤ steps },
    ghost bound: { steps ≤ 1000000000 },
}
