// The answers, in the script's order.
use crate::calls::Entry;
use crate::judge::Fault;
use memory::window::BadWindow;
use simulator::call::{Answer, CallFault, Reply};
use std::io;

fn print_fault(rt: &HostRuntime, fault: Fault) -> io::Result<()> {
    match fault {
        Fault::Plan(fault) => println!(rt;
            "refused {} {} {}",
            fault.number(),
            fault.place(),
            fault.layer()
        ),
        Fault::Module(fault) => println!(rt; "refused {} {}", fault.number(), fault.place()),
    }
}

fn print_reply(rt: &HostRuntime, reply: Reply) -> io::Result<()> {
    match reply {
        Reply::Done => println!(rt; "ok"),
        Reply::Ran { taken, end } => println!(rt; "ok {taken} {}", end.number()),
        Reply::Struck { bits } => println!(rt; "ok {bits}"),
        Reply::Word { word } => println!(rt; "ok {word}"),
        Reply::Shown { end, steps, stores } => println!(rt; "ok {} {steps} {stores}", end.number()),
    }
}

fn print_answer(rt: &HostRuntime, answer: Answer) -> io::Result<()> {
    match answer {
        Ok(reply) => print_reply(rt, reply),
        Err(CallFault::Unfit(fault)) => print_fault(rt, Fault::Module(fault)),
        Err(CallFault::Refused(refusal)) => println!(rt; "refused {}", refusal.number()),
    }
}

fn print_window(rt: &HostRuntime, window: &Result<(), BadWindow<()>>) -> io::Result<()> {
    match window {
        Ok(()) => println!(rt; "ok"),
        Err(refused) => println!(rt; "refused {}", refused.number()),
    }
}

// One answer a line: the window's, those of plans and modules, and those of the calls, which stand in their order.
pub fn print_answers(
    rt: &HostRuntime,
    entries: &[Entry],
    window: &Result<(), BadWindow<()>>,
    answers: &[Answer],
) -> io::Result<()> {
    let mut answers = answers.iter();
    for entry in entries {
        match entry {
            Entry::Window => print_window(rt, window)?,
            Entry::Passed(words) => println!(rt; "ok {}", words.len())?,
            Entry::Faulty(fault) => print_fault(rt, *fault)?,
            Entry::Load | Entry::Call(_) => {
                if let Some(answer) = answers.next() {
                    print_answer(rt, *answer)?;
                }
            }
        }
    }
    Ok(())
}
