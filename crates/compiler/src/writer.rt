ghost use Rattle.std.specs.Prelude.{◌≤◌, length};

// A module of so many instructions as it is written into an output, which has room for the largest
// one: so many of its blocks stand there.
// Stays (6): a rule of the project: the caller owns the module's words.
#[derive(Drop)]
pub(crate) struct Writer<'a> {
    pub(crate) out: &'a mut [u32],
    pub(crate) instructions: u32,
    pub(crate) blocks: u32,
    ghost room: { 2626 ≤ length out.now },
    ghost few: { instructions ≤ 1024 },
    ghost low: { blocks ≤ 64 },
}
