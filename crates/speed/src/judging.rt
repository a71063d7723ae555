// The check, on blocks of growing size.
use crate::calls::print_time;
use checker::check::Checker;
use std::alloc::{AllocError, Global};
use std::time::Instant;

const TIMES: u32 = 200;

// A module of one block of so many instructions; between the first one and the halt stand those of the closure, which
// takes their numbers.
fn block<F: Fn(u32) -> [u32; 2]>(
    heap: Global,
    instructions: u32,
    filling: F,
) -> Result<Vec<u32>, AllocError>
    requires { F.IsAlwaysCallable filling }
{
    let mut words = vec![in heap; instructions, 1, 0x0000_0000, 3]?;
    for number in 2..instructions {
        words.extend_from_slice(&filling(number))?;
    }
    words.push(0x0f00_0000)?;
    words.extend_from_slice(&[0; 10])?;
    Ok(words)
}

fn time_block<F: Fn(u32) -> [u32; 2]>(
    rt: &HostRuntime,
    what: &str,
    instructions: u32,
    filling: F,
) -> anyhow::Result<()>
    requires { F.IsAlwaysCallable filling }
{
    let words = block(rt.alloc(), instructions, filling)?;
    let mut checker = Checker::new(rt.alloc())?;
    let start = Instant::now(rt)?;
    let passed = (0..TIMES)
        .filter(|_| checker.check(words.as_slice()).is_ok())
        .count();
    print!(rt; "{instructions} ")?;
    print_time(rt, what, passed, start)
}

// Blocks of 128, 256, 512 and 1,024 instructions.
pub fn time_check(rt: &HostRuntime) -> anyhow::Result<()> {
    for instructions in [128u32, 256, 512, 1024] {
        // `add r0 r0 r0`: each doubles the tree.
        time_block(rt, "doubling", instructions, |_| [0x0300_0000, 0])?;
        // `movG r0 n`, each with another number.
        time_block(rt, "straight", instructions, |number| [0x0000_0000, number])?;
    }
    Ok(())
}
