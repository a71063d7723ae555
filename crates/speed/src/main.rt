// Times the calls of the product: `speed machine FILE`, `speed read FILE TIMES`, `speed compile FILE TIMES`
// and `speed check`. Each line says what was timed, how often, and the nanoseconds for all of it.
// `bench/run.sh` holds these beside the same things in plain Rust.
#![tactic(auto)]

mod calls;
mod judging;

use anyhow::anyhow;
use calls::{time_compile, time_machine, time_read};
use judging::time_check;
use std::{env, fs};

fn times(text: Option<&String>) -> anyhow::Result<u32> {
    match text {
        Some(number) => Ok(number.as_str().parse::<u32>()?),
        None => Ok(1),
    }
}

fn time_file(rt: &HostRuntime, what: &str, file: &str, times: u32) -> anyhow::Result<()> {
    let text = fs::read(rt, file)?;
    match what {
        "machine" => time_machine(rt, text.as_slice()),
        "read" => time_read(rt, text.as_slice(), times),
        "compile" => time_compile(rt, text.as_slice(), times),
        _ => Err(anyhow!("speed: machine, read, compile or check")),
    }
}

fn run(rt: &HostRuntime) -> anyhow::Result<()> {
    let words: Vec<String> = env::args(rt)?.collect(rt.alloc())?;
    let Some(what) = words.get(1) else {
        println!(rt; "usage: speed machine FILE | read FILE TIMES | compile FILE TIMES | check")?;
        return Ok(());
    };
    match words.get(2) {
        Some(file) => time_file(rt, what.as_str(), file.as_str(), times(words.get(3))?),
        None => time_check(rt),
    }
}

fn main(rt: HostRuntime) -> anyhow::Result<()> {
    run(&rt)
}
