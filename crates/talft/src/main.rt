// The hosts' tool: compiles, checks and lists plans and modules, and replays scripts of calls.
#![tactic(auto)]

mod answers;
mod calls;
mod failed;
mod files;
mod judge;
mod rerun;
mod tell;

use failed::Failed;
use files::By;
use judge::Tools;
use rerun::rerun;
use std::env;
use std::process::ExitCode;
use tell::{check, compile, list};

fn tell_usage(rt: &HostRuntime) -> Failed {
    let _ = eprintln!(rt; "usage: talft replay < SCRIPT");
    let _ = eprintln!(rt; "       talft compile PLAN");
    let _ = eprintln!(rt; "       talft check FILE");
    let _ = eprintln!(rt; "       talft list FILE");
    Failed::Told
}

// The words of the call, the program's own name left out.
fn arguments(rt: &HostRuntime) -> Result<Vec<String>, Failed> {
    Ok(env::args(rt)?.skip(1).collect(rt.alloc())?)
}

fn run(rt: &HostRuntime) -> Result<(), Failed> {
    let words = arguments(rt)?;
    let mut tools = Tools::new(rt.alloc())?;
    match words.as_slice() {
        [command] if command.as_str() == "replay" => rerun(rt, &mut tools),
        [command, path] => run_on(rt, &mut tools, command.as_str(), path.as_str()),
        _ => Err(tell_usage(rt)),
    }
}

// A command on a file.
// Stays (5): no plainer: the tools are one for the whole call, and the path is one command's.
fn run_on(rt: &HostRuntime, tools: &mut Tools, command: &str, path: &str) -> Result<(), Failed> {
    match command {
        "compile" => compile(rt, tools, path),
        "check" => check(rt, tools, path),
        "list" => list(rt, tools, path),
        _ => Err(tell_usage(rt)),
    }
}

// Standard error is told what is wrong, if it was not yet, and the status is 1.
fn told(rt: &HostRuntime, failed: Failed) -> ExitCode {
    if !matches!(failed, Failed::Told) {
        let _ = eprintln!(rt; "talft: {failed}");
    }
    ExitCode::FAILURE
}

// Stays (4): no plainer: each arm is a status, and the second tells standard error before.
fn main(rt: HostRuntime) -> ExitCode {
    match run(&rt) {
        Ok(()) => ExitCode::SUCCESS,
        Err(failed) => told(&rt, failed),
    }
}
