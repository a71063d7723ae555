// Modules of the examples, as words, and short ways to try them.
use checker::check::Checker;
use checker::fault::CheckFault;
use compiler::fault::CompileFault;
use compiler::tables::Compiler;
use isa::limits::MODULE_WORDS;
use std::alloc::{AllocError, Global};

// Module S: both copies compute address 5 and word 7 by themselves and store. Blue's store is given.
pub fn module_s(blue_store: u32) -> [u32; 25] {
    [
        7,
        1,
        0x0000_0000,
        5,
        0x0101_0000,
        5,
        0x0002_0000,
        7,
        0x0103_0000,
        7,
        0x0900_0200,
        0,
        blue_store,
        0,
        0x0f00_0000,
        0,
        0,
        0,
        0,
        0,
        0,
        0,
        0,
        0,
        0,
    ]
}

// stB r1 r3
pub const BLUE_READS_BLUE: u32 = 0x0a01_0300;
// stB r0 r2
pub const BLUE_READS_GREEN: u32 = 0x0a00_0200;

// Green stores 3 + 4, blue 7.
pub fn folded() -> [u32; 29] {
    [
        9,
        1,
        0x0000_0000,
        5,
        0x0101_0000,
        5,
        0x0002_0000,
        3,
        0x0004_0000,
        4,
        0x0302_0204,
        0,
        0x0103_0000,
        7,
        0x0900_0200,
        0,
        0x0a01_0300,
        0,
        0x0f00_0000,
        0,
        0,
        0,
        0,
        0,
        0,
        0,
        0,
        0,
        0,
    ]
}

// A comes from a card; green stores A + A, blue 2 × A. The blue store is instruction 8.
pub fn doubled_and_twice() -> [u32; 40] {
    [
        10,
        2,
        0x0000_0000,
        1,
        0x0101_0000,
        1,
        0x0002_0000,
        5,
        0x0103_0000,
        5,
        0x0304_0000,
        0,
        0x0105_0000,
        2,
        0x0505_0501,
        0,
        0x0902_0400,
        0,
        0x0a03_0500,
        0,
        0x0f00_0000,
        0,
        0,
        0,
        0,
        0,
        0,
        0,
        0,
        0,
        0,
        2,
        0x0181_0000,
        0,
        0,
        0,
        0,
        0,
        0,
        0,
    ]
}

// One block: a mov, so many times `add r0 r0 r0`, a halt.
pub fn doubling(heap: Global, adds: u32) -> Result<Vec<u32>, AllocError> {
    let mut words = vec![in heap; adds.saturating_add(2), 1, 0x0000_0000, 3]?;
    for _ in 0..adds {
        words.extend_from_slice(&[0x0300_0000, 0])?;
    }
    words.push(0x0f00_0000)?;
    words.extend_from_slice(&[0; 10])?;
    Ok(words)
}

// The verdict of the check: None where the words pass.
pub fn verdict(heap: Global, words: &[u32]) -> Result<Option<CheckFault>, AllocError> {
    let mut checker = Checker::new(heap)?;
    Ok(checker.check(words).err())
}

// The fault of a text: None where it compiles.
pub fn fault_of(heap: Global, text: &str) -> Result<Option<CompileFault>, AllocError> {
    let mut compiler = Compiler::new(heap)?;
    let mut out = vec![in heap; 0u32; MODULE_WORDS]?;
    Ok(compiler.compile(text.as_bytes(), out.as_mut_slice()).err())
}
