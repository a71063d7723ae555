// Scripts: read whole, then made as one list of calls, then answered line by line.
ghost use Rattle.std.specs.Prelude.{◌≡◌, [], ◌∷◌, ◌++◌, OnOk};
ghost use Rattle.talft.specs.declared.calls.Entry.TheVariants.{Load};
ghost use Rattle.talft.specs.Acts.{verdict};

use crate::answers::print_answers;
use crate::calls::{Entry, calls_of};
use crate::failed::Failed;
use crate::files::{By, MOST_BYTES, read_file, read_script};
use crate::judge::{Fault, Tools};
use checker::check::Checker;
use checker::pass::Pass;
use memory::window::{BadWindow, Window};
use memory::{ArrayMemory, Memory};
use plan::limits::TEXT;
use script::command::{Command, command_of, second_word};
use simulator::call::{Answer, Call};
use simulator::simulator::Simulator;
use std::alloc::{AllocError, Global};
use std::str::from_utf8;
use text::bytes::{first_line, first_word, said};
use text::list::{ListFault, read_list};

// Start and length of a window.
#[derive(Clone, Copy)]
struct Frame {
    start: u64,
    length: u64,
}

// How far a script is read: no line yet, lines that say what there is, or a call among them.
#[derive(Clone, Copy, PartialEq, Eq, PartialOrd, Ord)]
enum Stage {
    Fresh,
    Begun,
    Called,
}

// A line of a script, without its comment.
#[derive(Clone, Copy)]
struct Line<'a> {
    number: usize,
    said: &'a [u8],
}

impl<'a> Line<'a> {
    fn complain(self, rt: &HostRuntime, what: &str) -> Failed {
        let number = self.number;
        let _ = eprintln!(rt; "talft: line {number}: {what}");
        Failed::Told
    }

    // The file that the line names.
    fn path(self, rt: &HostRuntime) -> Result<&'a str, Failed> {
        second_word(self.said)
            .and_then(|word| from_utf8(word).ok())
            .ok_or_else(|| self.complain(rt, "the file's name is no text"))
    }
}

// A script as far as it is read.
#[derive(Drop)]
struct Script {
    stage: Stage,
    cells: Vec<u32>,
    window: Option<Frame>,
    entries: Vec<Entry>,
}

impl Script {
    // Nothing read, and no cells.
    fn new(heap: Global) -> Script {
        Script {
            stage: Stage::Fresh,
            cells: Vec::new(heap),
            window: None,
            entries: Vec::new(heap),
        }
    }

    fn add(&mut self, entry: Entry) -> Result<(), Failed>
        ensures { OnOk result (self.new.entries.items ≡ self.old.entries.items ++ entry ∷ []) }
    {
        self.entries.push(entry)?;
        Ok(())
    }

    // Adds the verdict on a plan or a module. The next loads load what passed; what did not leaves the former words.
    fn add_module(&mut self, judged: Result<Vec<u32>, Fault>) -> Result<(), Failed>
        ensures { OnOk result (self.new.entries.items ≡ self.old.entries.items ++ verdict judged ∷ []) }
    {
        match judged {
            Ok(words) => self.add(Entry::Passed(words)),
            Err(fault) => self.add(Entry::Faulty(fault)),
        }
    }

    fn add_call(&mut self, entry: Entry) -> Result<(), Failed>
        ensures { OnOk result (self.new.entries.items ≡ self.old.entries.items ++ entry ∷ []) }
    {
        self.stage = Stage::Called;
        self.add(entry)
    }

    // Adds a load, of the words that passed last.
    fn add_load(&mut self) -> Result<(), Failed>
        ensures { OnOk result (self.new.entries.items ≡ self.old.entries.items ++ Load ∷ []) }
    {
        self.add_call(Entry::Load)
    }

    fn take_cells(&mut self, rt: &HostRuntime, line: Line<'_>) -> Result<(), Failed> {
        if self.stage != Stage::Fresh {
            return Err(line.complain(rt, "cells stand first, and once"));
        }
        let words = first_word(line.said).map_or(line.said, |first| first.rest);
        self.cells = read_list(rt.alloc(), words, words.len()).map_err(|fault| match fault {
            ListFault::NoNumber(_) => line.complain(rt, "cells are numbers of 32 bits"),
            ListFault::Memory => Failed::Memory(AllocError),
        })?;
        Ok(())
    }

    fn take_window(
        &mut self,
        rt: &HostRuntime,
        line: Line<'_>,
        frame: Frame,
    ) -> Result<(), Failed> {
        if self.stage == Stage::Called || self.window.is_some() {
            return Err(line.complain(rt, "a window stands before the calls, and once"));
        }
        self.window = Some(frame);
        self.add(Entry::Window)
    }

    // Stays (5): no plainer: the tools are one for all lines, and the line is one of them.
    fn take_plan(
        &mut self,
        rt: &HostRuntime,
        tools: &mut Tools,
        line: Line<'_>,
    ) -> Result<(), Failed> {
        let text = read_file(rt, By::Line(line.number), line.path(rt)?, TEXT)?;
        let judged = tools.compiled(rt.alloc(), text.bytes.as_slice())?;
        self.add_module(judged)
    }

    fn take_module(
        &mut self,
        rt: &HostRuntime,
        tools: &mut Tools,
        line: Line<'_>,
    ) -> Result<(), Failed> {
        let text = read_file(rt, By::Line(line.number), line.path(rt)?, MOST_BYTES)?;
        let words = text.module_words(rt)?;
        match tools.check(words.as_slice()) {
            // The script keeps a copy, which has no more room than the words fill.
            Ok(()) => self.add_module(Ok(words.as_slice().to_vec(rt.alloc())?)),
            Err(fault) => self.add_module(Err(fault)),
        }
    }

    fn take_line(
        &mut self,
        rt: &HostRuntime,
        tools: &mut Tools,
        line: Line<'_>,
    ) -> Result<(), Failed> {
        let Some(command) = command_of(line.said) else {
            return Err(line.complain(rt, "not a line of a script"));
        };
        match command {
            Command::Blank => return Ok(()),
            Command::Cells => self.take_cells(rt, line)?,
            Command::Window { start, length } => {
                self.take_window(rt, line, Frame { start, length })?
            }
            Command::Plan => self.take_plan(rt, tools, line)?,
            Command::Module => self.take_module(rt, tools, line)?,
            Command::Load => self.add_load()?,
            _ => self.add_call(Entry::Call(command))?,
        }
        self.stage = self.stage.max(Stage::Begun);
        Ok(())
    }
}

// Reads a script; no call is made yet.
fn read_all(rt: &HostRuntime, tools: &mut Tools, text: &[u8]) -> Result<Script, Failed> {
    let mut script = Script::new(rt.alloc());
    let mut rest = text;
    // Stays (3): no plainer: `split` of the library hands out lines too, but only `first_line` says which bytes are one.
    for number in 1..usize::MAX {
        if rest.is_empty() {
            break;
        }
        let split = first_line(rest);
        let line = Line {
            number,
            said: said(split.part),
        };
        script.take_line(rt, tools, line)?;
        rest = split.rest;
    }
    Ok(script)
}

// Makes the calls over a memory.
fn replay_over<M: Memory + Drop>(
    heap: Global,
    checker: &mut Checker,
    memory: M,
    calls: &[Call<'_>],
) -> Result<Vec<Answer>, Failed> {
    let Ok(mut simulator) = Simulator::new(heap, memory) else {
        return Err(Failed::Memory(AllocError));
    };
    Ok(simulator.replay(heap, checker, calls)?)
}

// Whether there could be a window, and the answers of the calls.
#[derive(Drop)]
struct Replayed {
    window: Result<(), BadWindow<()>>,
    answers: Vec<Answer>,
}

// Makes the calls over the cells, seen through the window if there is one. A window that is refused leaves the cells
// as they are.
fn replay_calls(
    heap: Global,
    checker: &mut Checker,
    cells: &mut [u32],
    frame: Option<Frame>,
    calls: &[Call<'_>],
) -> Result<Replayed, Failed> {
    let array = ArrayMemory { words: cells };
    let Some(frame) = frame else {
        return Ok(Replayed {
            window: Ok(()),
            answers: replay_over(heap, checker, array, calls)?,
        });
    };
    match Window::new(array, frame.start, frame.length) {
        Ok(window) => Ok(Replayed {
            window: Ok(()),
            answers: replay_over(heap, checker, window, calls)?,
        }),
        Err(refused) => Ok(Replayed {
            window: Err(BadWindow { memory: () }),
            answers: replay_over(heap, checker, refused.memory, calls)?,
        }),
    }
}

// Reads the script from standard input, makes its calls as one list, and prints an answer for each line. Loads before
// any plan or module that passed load the module of one halt.
pub fn rerun(rt: &HostRuntime, tools: &mut Tools) -> Result<(), Failed> {
    let heap = rt.alloc();
    let text = read_script(rt)?;
    let mut script = read_all(rt, tools, text.as_slice())?;
    let halt = Pass::new();
    let calls = calls_of(heap, halt.words(), script.entries.as_slice())?;
    let replayed = replay_calls(
        heap,
        &mut tools.checker,
        script.cells.as_mut_slice(),
        script.window,
        calls.as_slice(),
    )?;
    print_answers(
        rt,
        script.entries.as_slice(),
        &replayed.window,
        replayed.answers.as_slice(),
    )?;
    Ok(())
}
