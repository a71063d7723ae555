// The machine, the reader and the compiler.
use anyhow::anyhow;
use checker::check::Checker;
use compiler::tables::Compiler;
use isa::limits::MODULE_WORDS;
use memory::{ArrayMemory, Memory};
use plan::reader::Reader;
use simulator::simulator::Simulator;
use std::time::Instant;

// Steps of one call of run, and how many calls.
const AT_ONCE: u32 = 1_000_000;

const CALLS: u32 = 100;

// Cells that the timed plan finds.
const CELLS: usize = 4096;

// Prints what was timed, how often it was done, and for how long.
pub fn print_time(
    rt: &HostRuntime,
    what: &str,
    count: usize,
    start: Instant,
) -> anyhow::Result<()> {
    let nanos = start.elapsed(rt)?.as_nanos();
    println!(rt; "{what} {count} {nanos}")?;
    Ok(())
}

// A hundred million steps of the compiled plan over an array memory.
pub fn time_machine(rt: &HostRuntime, text: &[u8]) -> anyhow::Result<()> {
    let heap = rt.alloc();
    let mut compiler = Compiler::new(heap)?;
    let mut out = vec![in heap; 0u32; MODULE_WORDS]?;
    let Ok(count) = compiler.compile(text, out.as_mut_slice()) else {
        return Err(anyhow!("the plan does not compile"));
    };
    out.truncate(count);
    let mut checker = Checker::new(heap)?;
    let Ok(pass) = checker.check(out.as_slice()) else {
        return Err(anyhow!("the module does not pass"));
    };
    let mut cells = vec![in heap; 1u32; CELLS]?;
    let memory = ArrayMemory {
        words: cells.as_mut_slice(),
    };
    let Ok(mut simulator) = Simulator::new(heap, memory) else {
        return Err(anyhow!("no memory"));
    };
    let Ok(()) = simulator.load(&pass) else {
        return Err(anyhow!("not idle"));
    };
    let start = Instant::now(rt)?;
    for _ in 0..CALLS {
        let _ = simulator.run(AT_ONCE);
    }
    print_time(rt, "machine", simulator.show().steps as usize, start)?;
    let shown = simulator.show();
    println!(rt; "end {} stores {}", shown.end.number(), shown.stores)?;
    Ok(())
}

pub fn time_read(rt: &HostRuntime, text: &[u8], times: u32) -> anyhow::Result<()> {
    let mut reader = Reader::new(rt.alloc())?;
    let start = Instant::now(rt)?;
    let read = (0..times).filter(|_| reader.read(text).is_ok()).count();
    print_time(rt, "read", read, start)
}

pub fn time_compile(rt: &HostRuntime, text: &[u8], times: u32) -> anyhow::Result<()> {
    let heap = rt.alloc();
    let mut compiler = Compiler::new(heap)?;
    let mut out = vec![in heap; 0u32; MODULE_WORDS]?;
    let start = Instant::now(rt)?;
    let compiled = (0..times)
        .filter(|_| compiler.compile(text, out.as_mut_slice()).is_ok())
        .count();
    print_time(rt, "compile", compiled, start)
}
