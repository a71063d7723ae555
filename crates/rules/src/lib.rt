// The rules of the check as definitions, and what stands of them.
#![tactic(auto)]

ghost use Rattle.std.specs.Prelude.{◌≡◌};
ghost use Rattle.rules.specs.Limits.{in_force};
ghost use Rattle.rules.specs.Copies.{CopiesStand};
ghost use Rattle.rules.specs.Met.{CardStands};
ghost use Rattle.rules.specs.Part.{PartStands};

use isa::limits::QUEUE;

// Carries the theorems on the rules; answers how many stores may be pending by the limits in force.
// `cards`: what decides that a card is met says that each coloured register has a note of that colour,
// and that registers with one variable have the same expression.
// `parts`: the rules of a block, judged by itself, are the module's rules at its places.
// `copies`: where every rule is kept, no instruction reads a register without a note or registers of
// both colours, every store that leaves was stated by both colours with the same expressions, and
// nothing is pending where control leaves a block.
pub fn rules_stand() -> u8
    ensures limit { result ≡ in_force.queue }
    ensures cards { CardStands }
    ensures parts { PartStands }
    ensures copies { CopiesStand }
{
    QUEUE as u8
}
