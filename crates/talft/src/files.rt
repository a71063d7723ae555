// What the tool reads: at most so much of it.
use crate::failed::Failed;
use isa::limits::MODULE_WORDS;
use std::alloc::AllocError;
use std::fs::File;
use std::io::Read;
use std::{fmt, io};
use text::list::{ListFault, read_list};

// Bytes of a script, and of a module's file.
pub const MOST_BYTES: usize = 1_048_576;

// On whose word a file is read: the call's, or a script's line with this number.
// Stays (1): no plainer: an Option cannot be printed in words of our own, and these names say whose word it is.
#[derive(Clone, Copy)]
pub enum By {
    Call,
    Line(usize),
}

impl fmt::Display for By {
    fn fmt<W: fmt::Write>(&self, f: &mut fmt::Formatter<W>) -> fmt::Result {
        match *self {
            By::Call => Ok(()),
            By::Line(number) => write!(f, " line {number}:"),
        }
    }
}

// Of more bytes than allowed, one more than that.
fn read_some<R: Read + Drop>(rt: &HostRuntime, from: R, allowed: usize) -> io::Result<Vec<u8>> {
    let mut bytes = Vec::new(rt.alloc());
    let limit = (allowed as u64).saturating_add(1);
    from.take(limit).read_to_end(&mut bytes)?;
    Ok(bytes)
}

fn open_and_read(rt: &HostRuntime, path: &str, allowed: usize) -> io::Result<Vec<u8>> {
    read_some(rt, File::open(rt, path)?, allowed)
}

// A file that was read: on whose word, its name, and its bytes.
#[derive(Drop)]
pub struct Text<'a> {
    pub by: By,
    pub path: &'a str,
    pub bytes: Vec<u8>,
}

// A file is read: of more bytes than allowed, one more than that.
pub fn read_file<'a>(
    rt: &HostRuntime,
    by: By,
    path: &'a str,
    allowed: usize,
) -> Result<Text<'a>, Failed> {
    let bytes = open_and_read(rt, path, allowed).map_err(|error| {
        let _ = eprintln!(rt; "talft:{by} cannot read {path}: {error}");
        Failed::Told
    })?;
    Ok(Text { by, path, bytes })
}

// The bytes of the script.
pub fn read_script(rt: &HostRuntime) -> Result<Vec<u8>, Failed> {
    let bytes = read_some(rt, rt.stdin(), MOST_BYTES)?;
    if bytes.len() > MOST_BYTES {
        let _ = eprintln!(rt; "talft: the script has more than {MOST_BYTES} bytes");
        return Err(Failed::Told);
    }
    Ok(bytes)
}

impl Text<'_> {
    // Tells why the file is no list of words.
    fn tell_list_fault(&self, rt: &HostRuntime, fault: ListFault) -> Failed {
        let by = self.by;
        let path = self.path;
        match fault {
            ListFault::Memory => Failed::Memory(AllocError),
            ListFault::NoNumber(at) => {
                let number = at.saturating_add(1);
                let _ = eprintln!(rt; "talft:{by} {path}: word {number} is no number of 32 bits");
                Failed::Told
            }
        }
    }

    // The words of a module: of one that is too long, one word more than the longest has.
    pub fn module_words(&self, rt: &HostRuntime) -> Result<Vec<u32>, Failed> {
        if self.bytes.len() > MOST_BYTES {
            let by = self.by;
            let path = self.path;
            let _ = eprintln!(rt; "talft:{by} {path} has more than {MOST_BYTES} bytes");
            return Err(Failed::Told);
        }
        read_list(rt.alloc(), self.bytes.as_slice(), MODULE_WORDS + 1).map_err(
            |fault| self.tell_list_fault(rt, fault),
        )
    }
}
