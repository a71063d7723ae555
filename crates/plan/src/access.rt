// What may be seen of a plan.
ghost use Rattle.std.specs.Prelude.{◌≡◌, ◌≤◌};
ghost use Rattle.plan.specs.Plans.{spent, needed};

use crate::tables::Plan;
use crate::tree::{Node, Statement};

impl Plan {
    // The nodes of all expressions; each refers to earlier ones.
    pub fn nodes(&self) -> &[Node]
        ensures { result.now ≡ self.now.nodes.items }
    {
        self.nodes.as_slice()
    }

    // The lines, in the order of the text.
    pub fn statements(&self) -> &[Statement]
        ensures { result.now ≡ self.now.statements.items }
    {
        self.statements.as_slice()
    }

    // The instructions that all lines need: two for each node, and those of each statement.
    pub(crate) fn spent(&self) -> u32
        ensures value { result ≡ spent self.now }
        ensures bound { result ≤ 131072 }
    {
        2 * self.nodes.len() as u32 + self.own
    }

    // How many instructions the plan's code has at most.
    pub fn need(&self) -> u32
        ensures { result ≡ needed self.now }
    {
        13 + self.spent()
    }

    // How many REPEATs the plan has.
    pub fn repeats(&self) -> u32
        ensures { result ≡ self.now.repeats }
    {
        self.repeats
    }
}
