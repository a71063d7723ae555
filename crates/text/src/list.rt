// Lists of numbers as text: the words of a module, and of cells.
ghost use Rattle.std.specs.Prelude.{◌≡◌, ℕ, ◌<◌, ◌≤◌, List, [], ◌∷◌, ◌++◌, map, length, vec_len};
ghost use Rattle.text.specs.declared.list.ListFault.TheVariants.{Memory};
ghost use Rattle.text.specs.Lists.{Read};

use crate::bytes::first_word;
use crate::number::word;
use std::alloc::{AllocError, AllocFailed, Global};

// Why a text is no list of numbers.
#[derive(Clone, Copy)]
pub enum ListFault {
    // The word with this number, counted from 0, is no number of 32 bits.
    NoNumber(usize),
    // Want of memory.
    Memory,
}

// The clause of read_list names the fault that ? makes, and a derived From has no contract.
impl From<AllocError> for ListFault {
    ghost from_gives = { λ _ r. r ≡ Memory };

    fn from(_e: AllocError) -> ListFault {
        ListFault::Memory
    }
}

impl<T: Drop> From<AllocFailed<T>> for ListFault {
    ghost from_gives = { λ _ r. r ≡ Memory };

    fn from(_e: AllocFailed<T>) -> ListFault {
        ListFault::Memory
    }
}

// The numbers that the words of a text are, the first so many of them at most; or the first word that is none.
pub fn read_list(heap: Global, text: &[u8], most: usize) -> Result<Vec<u32>, ListFault>
    ensures { Read text.now most result }
{
    let mut numbers = Vec::new(heap);
    let mut rest = text;
    while numbers.len() < most {
        let Some(split) = first_word(rest) else {
            break;
        };
        let number = word(split.part).ok_or(ListFault::NoNumber(numbers.len()))?;
        numbers.push(number)?;
        rest = split.rest;
    }
    Ok(numbers)
}
