// The calls that a script makes.
ghost use Rattle.std.specs.Prelude.{◌≡◌, map, IfOk};
ghost use Rattle.std.specs.Option.{option_map, option_to_list};
ghost use Rattle.talft.specs.Acts.{seen, act, acts, last_words};

use crate::judge::Fault;
use script::command::Command;
use simulator::call::Call;
use std::alloc::{AllocError, Global};

// A line that is answered. A plan or a module that passed stands with its words, and a load loads those that passed
// last; the other calls are commands as they stand.
#[derive(Drop)]
pub enum Entry {
    Window,
    Passed(Vec<u32>),
    Faulty(Fault),
    Load,
    Call(Command),
}

// The call that a line makes, if it makes one; loads load these words.
// Stays (4): no plainer: a command that is no call has no call to turn into, and neither crate knows the other.
fn call_of<'m>(entry: &Entry, last: &'m [u32]) -> Option<Call<'m>>
    ensures { option_to_list (option_map seen result) ≡ act last.now entry.now }
{
    match *entry {
        Entry::Load => Some(Call::Load(last)),
        Entry::Call(Command::Put { address, word }) => Some(Call::Put { address, word }),
        Entry::Call(Command::Run { steps }) => Some(Call::Run { steps }),
        Entry::Call(Command::Strike { place, value }) => Some(Call::Strike { place, value }),
        Entry::Call(Command::Look { address }) => Some(Call::Look { address }),
        Entry::Call(Command::Probe { place }) => Some(Call::Probe { place }),
        Entry::Call(Command::Show) => Some(Call::Show),
        Entry::Call(Command::Clear) => Some(Call::Clear),
        _ => None,
    }
}

// The words that loads load behind a line.
fn words_behind<'m>(entry: &'m Entry, last: &'m [u32]) -> &'m [u32]
    ensures { result.now ≡ last_words last.now entry.now }
{
    match entry {
        Entry::Passed(words) => words.as_slice(),
        _ => last,
    }
}

// The calls of a script, in their order; loads before any plan or module that passed load these words.
pub fn calls_of<'m>(
    heap: Global,
    first: &'m [u32],
    entries: &'m [Entry],
) -> Result<Vec<Call<'m>>, AllocError>
    ensures { IfOk result (λ v. map seen v.items ≡ acts first.now entries.now) }
{
    let mut calls = Vec::new(heap);
    let mut last = first;
    for entry in entries {
        if let Some(call) = call_of(entry, last) {
            calls.push(call)?;
        }
        last = words_behind(entry, last);
    }
    Ok(calls)
}
