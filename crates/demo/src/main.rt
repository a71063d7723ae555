// One task from the plan's text to a struck run, told as it is done.
#![tactic(auto)]

mod journal;
mod runs;

use anyhow::anyhow;
use checker::check::Checker;
use compiler::tables::Compiler;
use isa::layout::{Layout, block_count, instruction_at, instruction_count};
use isa::limits::MODULE_WORDS;
use listing::module::{block_end, print_instruction, print_module};
use plan::tables::Plan;
use runs::{tell_struck, tell_unstruck};
use std::io;

const TEXT: &str = "LET A = [0]\nREPEAT 3\nPUT A , [A] + 5\nLET A = A + 1\nEND\n";

// The first instruction that blue stores with.
const BLUE_STORE: u32 = 37;

fn print_text(rt: &HostRuntime) -> io::Result<()> {
    println!(rt; "The plan, {} bytes:", TEXT.len())?;
    for (index, line) in TEXT.lines().enumerate() {
        println!(rt; "  {}  {line}", index.saturating_add(1))?;
    }
    Ok(())
}

fn print_read(rt: &HostRuntime, plan: &Plan, widest: u32) -> io::Result<()> {
    println!(rt; "")?;
    println!(rt;
        "Read: {} lines, {} REPEAT, {} nodes, widest expression {widest} of 5, need {} of 1024 instructions.",
        plan.statements().len(),
        plan.repeats(),
        plan.nodes().len(),
        plan.need()
    )
}

// The check's verdict, block by block: with a fault at an instruction, the blocks before it stand.
fn print_verdict(rt: &HostRuntime, words: &[u32], bad: Option<u32>) -> io::Result<()> {
    let layout = Layout::new(words);
    for block in 0..block_count(words) {
        let start = layout.start(block);
        let end = block_end(words, block);
        let last = end.saturating_sub(1);
        match bad {
            Some(bad) if bad < start => {}
            Some(bad) if bad < end => println!(rt;
                "  block {block}, instructions {start} to {last}: broken at instruction {bad}"
            )?,
            _ => println!(rt;
                "  block {block}, instructions {start} to {last}: every rule is kept"
            )?,
        }
    }
    Ok(())
}

// The merged code of the story: blue's store reads green's registers.
fn tell_merged(rt: &HostRuntime, words: &[u32]) -> anyhow::Result<()> {
    let mut merged = words.to_vec(rt.alloc())?;
    let Some(word) = merged.get_mut(2 + 2 * BLUE_STORE as usize) else {
        return Err(anyhow!("the module has no such instruction"));
    };
    *word = word.wrapping_sub(0x0001_0100);
    println!(rt; "")?;
    println!(rt;
        "The same module as an optimiser would merge it, blue storing from green's registers:"
    )?;
    print_instruction(rt, BLUE_STORE, instruction_at(words, BLUE_STORE).kind)?;
    println!(rt; "  becomes")?;
    print_instruction(
        rt,
        BLUE_STORE,
        instruction_at(merged.as_slice(), BLUE_STORE).kind,
    )?;
    let mut checker = Checker::new(rt.alloc())?;
    match checker.check(merged.as_slice()) {
        Ok(_) => println!(rt; "It passes.")?,
        Err(fault) => {
            println!(rt;
                "The check refuses it: fault {} at {}.",
                fault.number(),
                fault.place()
            )?;
            print_verdict(rt, merged.as_slice(), Some(fault.place()))?;
        }
    }
    Ok(())
}

// What is done with a module's words.
fn tell_module(rt: &HostRuntime, words: &[u32]) -> anyhow::Result<()> {
    println!(rt; "")?;
    println!(rt;
        "Compiled to {} words, {} instructions in {} blocks:",
        words.len(),
        instruction_count(words),
        block_count(words)
    )?;
    print_module(rt, words)?;
    let mut checker = Checker::new(rt.alloc())?;
    let pass = match checker.check(words) {
        Ok(pass) => pass,
        Err(fault) => {
            println!(rt;
                "Refused by the check: fault {} at {}.",
                fault.number(),
                fault.place()
            )?;
            return Ok(());
        }
    };
    println!(rt; "")?;
    println!(rt; "The check passes it:")?;
    print_verdict(rt, words, None)?;
    let stores = tell_unstruck(rt, &pass)?;
    tell_struck(rt, &pass, stores.as_slice())?;
    tell_merged(rt, words)
}

fn tell(rt: &HostRuntime) -> anyhow::Result<()> {
    let heap = rt.alloc();
    print_text(rt)?;
    let mut out = vec![in heap; 0u32; MODULE_WORDS]?;
    let mut compiler = Compiler::new(heap)?;
    match compiler.compile(TEXT.as_bytes(), out.as_mut_slice()) {
        Ok(count) => {
            print_read(rt, compiler.plan(), compiler.widest())?;
            if count > out.len() {
                return Err(anyhow!("more words than the output holds"));
            }
            tell_module(rt, &out.as_slice()[..count])
        }
        Err(fault) => {
            println!(rt;
                "Refused: fault {} at byte {}.",
                fault.number(),
                fault.place()
            )?;
            Ok(())
        }
    }
}

fn main(rt: HostRuntime) -> anyhow::Result<()> {
    tell(&rt)
}
