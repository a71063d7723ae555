// The commands of a script.
ghost use Rattle.std.specs.Prelude.{◌≡◌, slice_get};
ghost use Rattle.std.specs.Option.{option_map};
ghost use Rattle.text.specs.Bytes.{words};
ghost use Rattle.script.specs.Commands.{one, two, alone as alone_of, number as number_of, numbers as numbers_of, said as said_of, command_of};

use crate::verb::{Verb, verb_of};
use text::bytes::first_word;
use text::number::{wide, word};

// What a line says. The file of a plan or a module is the line's second word; the words of the cells are its others.
#[derive(Clone, Copy)]
pub enum Command {
    Blank,
    Cells,
    Window { start: u64, length: u64 },
    Plan,
    Module,
    Load,
    Put { address: u32, word: u32 },
    Run { steps: u32 },
    Strike { place: u32, value: u32 },
    Look { address: u32 },
    Probe { place: u32 },
    Show,
    Clear,
}

// The command, if no word stands in what is left of its line.
fn alone(rest: &[u8], command: Command) -> Option<Command>
    ensures { result ≡ alone_of (words rest.now) command }
{
    first_word(rest).is_none().then_some(command)
}

// The word that is left of a line, if it is one.
fn only(rest: &[u8]) -> Option<&[u8]>
    ensures { option_map (λ x. x.now) result ≡ one (words rest.now) }
{
    let first = first_word(rest)?;
    first_word(first.rest).is_none().then_some(first.part)
}

// The two words that are left of a line, if there are two.
fn both(rest: &[u8]) -> Option<(&[u8], &[u8])>
    ensures { option_map (λ p. (p.0.now, p.1.now)) result ≡ two (words rest.now) }
{
    let first = first_word(rest)?;
    let second = only(first.rest)?;
    Some((first.part, second))
}

// A number of 32 bits that is left of a line, alone.
fn number(rest: &[u8]) -> Option<u32>
    ensures { result ≡ number_of (words rest.now) }
{
    word(only(rest)?)
}

// Two such numbers.
fn numbers(rest: &[u8]) -> Option<(u32, u32)>
    ensures { result ≡ numbers_of (words rest.now) }
{
    let (first, second) = both(rest)?;
    Some((word(first)?, word(second)?))
}

// A window's start and length.
fn window(rest: &[u8]) -> Option<Command>
    ensures { result ≡ said_of Verb.Window (words rest.now) }
{
    let (start, length) = both(rest)?;
    Some(Command::Window {
        start: wide(start)?,
        length: wide(length)?,
    })
}

// The command of a verb with what is left of its line.
// Stays (7): no plainer: what stands behind a verb differs from verb to verb, as the definition of commands says.
fn with_verb(verb: Verb, rest: &[u8]) -> Option<Command>
    ensures { result ≡ said_of verb (words rest.now) }
{
    match verb {
        Verb::Cells => Some(Command::Cells),
        Verb::Window => window(rest),
        Verb::Plan => only(rest).map(|_| Command::Plan),
        Verb::Module => only(rest).map(|_| Command::Module),
        Verb::Load => alone(rest, Command::Load),
        Verb::Put => {
            let (address, word) = numbers(rest)?;
            Some(Command::Put { address, word })
        }
        Verb::Run => Some(Command::Run {
            steps: number(rest)?,
        }),
        Verb::Strike => {
            let (place, value) = numbers(rest)?;
            Some(Command::Strike { place, value })
        }
        Verb::Look => Some(Command::Look {
            address: number(rest)?,
        }),
        Verb::Probe => Some(Command::Probe {
            place: number(rest)?,
        }),
        Verb::Show => alone(rest, Command::Show),
        Verb::Clear => alone(rest, Command::Clear),
    }
}

// The command of a line without its comment; None for a line of another form.
pub fn command_of(line: &[u8]) -> Option<Command>
    ensures { result ≡ command_of (words line.now) }
{
    let Some(first) = first_word(line) else {
        return Some(Command::Blank);
    };
    with_verb(verb_of(first.part)?, first.rest)
}

// The second word of a line, if there is one.
pub fn second_word(line: &[u8]) -> Option<&[u8]>
    ensures { option_map (λ x. x.now) result ≡ slice_get (words line.now) 1 }
{
    let first = first_word(line)?;
    Some(first_word(first.rest)?.part)
}
