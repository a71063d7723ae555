// The commands on one file.
use crate::failed::Failed;
use crate::files::{By, MOST_BYTES, Text, read_file};
use crate::judge::{Fault, Tools};
use checker::fault::CheckFault;
use compiler::fault::CompileFault;
use isa::layout::{block_count, examine, instruction_count};
use listing::module::print_module;
use plan::limits::TEXT;
use std::io;
use std::io::Write;
use text::bytes::is_module;
use text::place::{line_at, locate};

impl Text<'_> {
    // A fault of a plan: number, layer and byte, and its line with a mark under the spot.
    fn tell_compile_fault(&self, rt: &HostRuntime, fault: CompileFault) -> io::Result<()> {
        let place = fault.place();
        let text = self.bytes.as_slice();
        let spot = locate(text, place);
        eprintln!(rt;
            "{}: fault {}, layer {}, at byte {place}: line {}, column {}",
            self.path,
            fault.number(),
            fault.layer(),
            spot.line,
            spot.column
        )?;
        rt.stderr().write_all(line_at(text, place))?;
        eprintln!(rt; "")?;
        for _ in 1..spot.column {
            eprint!(rt; " ")?;
        }
        eprintln!(rt; "^")
    }

    // A fault of a module: number and place.
    fn tell_check_fault(&self, rt: &HostRuntime, fault: CheckFault) -> io::Result<()> {
        let path = self.path;
        let number = fault.number();
        match fault {
            CheckFault::Malformed => eprintln!(rt; "{path}: fault {number} at 0"),
            CheckFault::Block(block) => eprintln!(rt; "{path}: fault {number} at block {block}"),
            CheckFault::Rule(place) => eprintln!(rt;
                "{path}: fault {number} at instruction {place}"
            ),
        }
    }

    fn tell_fault(&self, rt: &HostRuntime, fault: Fault) -> Failed {
        let _ = match fault {
            Fault::Plan(fault) => self.tell_compile_fault(rt, fault),
            Fault::Module(fault) => self.tell_check_fault(rt, fault),
        };
        Failed::Told
    }

    // The words of the module of the plan that the file is; they passed the check.
    fn plan_words(&self, rt: &HostRuntime, tools: &mut Tools) -> Result<Vec<u32>, Failed> {
        tools
            .compiled(rt.alloc(), self.bytes.as_slice())?
            .map_err(|fault| self.tell_fault(rt, fault))
    }

    // The words of a plan's module, or of a module, as the file's form says.
    fn words(&self, rt: &HostRuntime, tools: &mut Tools) -> Result<Vec<u32>, Failed> {
        if is_module(self.bytes.as_slice()) {
            self.module_words(rt)
        } else {
            self.plan_words(rt, tools)
        }
    }
}

// Prints the words of a plan's module, one a line.
pub fn compile(rt: &HostRuntime, tools: &mut Tools, path: &str) -> Result<(), Failed> {
    let words = read_file(rt, By::Call, path, TEXT)?.plan_words(rt, tools)?;
    for word in &words {
        println!(rt; "{word}")?;
    }
    Ok(())
}

fn print_verdict(rt: &HostRuntime, words: &[u32]) -> io::Result<()> {
    println!(rt;
        "passes: words {}, instructions {}, blocks {}",
        words.len(),
        instruction_count(words),
        block_count(words)
    )
}

// Prints the verdict on a plan or a module.
pub fn check(rt: &HostRuntime, tools: &mut Tools, path: &str) -> Result<(), Failed> {
    let text = read_file(rt, By::Call, path, MOST_BYTES)?;
    let words = text.words(rt, tools)?;
    tools
        .check(words.as_slice())
        .map_err(|fault| text.tell_fault(rt, fault))?;
    print_verdict(rt, words.as_slice())?;
    Ok(())
}

// Prints the listing of a plan's module, or of a module that is laid out as one.
pub fn list(rt: &HostRuntime, tools: &mut Tools, path: &str) -> Result<(), Failed> {
    let text = read_file(rt, By::Call, path, MOST_BYTES)?;
    let words = text.words(rt, tools)?;
    if let Err(fault) = examine(words.as_slice()) {
        let fault = Fault::Module(CheckFault::from(fault));
        return Err(text.tell_fault(rt, fault));
    }
    print_module(rt, words.as_slice())?;
    Ok(())
}
