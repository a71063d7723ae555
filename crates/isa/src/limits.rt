// The limits in force.

// Instructions of a module, and a plan's need of them.
pub const INSTRUCTIONS: u32 = 1024;
// Blocks of a module.
pub const BLOCKS: u32 = 64;
// Words of the largest module: two counts, two words an instruction, nine a block.
pub const MODULE_WORDS: usize = 2626;
// Registers of the machine.
pub const REGISTERS: u8 = 32;
// Pairs that green may have stored ahead of blue.
pub const QUEUE: usize = 16;
