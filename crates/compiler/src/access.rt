// What may be seen of a compiler.
ghost use Rattle.std.specs.Prelude.{◌≡◌, ℕ, ◌<◌, ◌≤◌, vec_len, slice_index, Contains};

use crate::tables::Compiler;
use plan::tables::Plan;

impl Compiler {
    // The plan of the text that was read last; before the first one, a plan without lines.
    pub fn plan(&self) -> &Plan
        ensures { result.now ≡ self.now.reader.plan }
    {
        self.reader.plan()
    }

    // The largest width in the table of the nodes that were read last.
    pub fn widest(&self) -> u32
        ensures bound { (k : ℕ) → k < vec_len self.now.widths → slice_index self.now.widths.items k ≤ result }
        ensures among { 0 < vec_len self.now.widths → Contains self.now.widths.items result }
        ensures none { vec_len self.now.widths ≡ 0 → result ≡ 0 }
    {
        self.widths.iter().copied().max().unwrap_or(0)
    }

    // The width of the widest expression of the plan that was compiled last.
    pub fn plan_width(&self) -> u32
        ensures { result ≡ self.now.widest }
    {
        self.widest
    }
}
