// From a text to its marks.
ghost use Rattle.std.specs.Prelude.{◌≡◌, ◌≤◌, [], length, take, IfOk, Ok, vec_len};
ghost use Rattle.std.specs.List.{take_while};
ghost use Rattle.marks.specs.Endings.{ending};
ghost use Rattle.marks.specs.Spelling.{goes_on, Scanned};

use crate::fault::MarkFault;
use crate::limits::TEXT;
use crate::text::Marks;
use crate::word::{Kind, spelled};
use grammar::mark::Placed;
use std::alloc::{AllocError, Global};

// How many bytes of this kind stand at the front of a text.
fn run_len(kind: Kind, text: &[u8]) -> usize
    ensures { result ≡ length (take_while (goes_on kind) text.now) }
{
    text.iter().take_while(|byte| kind.goes_on(**byte)).count()
}

impl Marks {
    // The marks of the empty text, with room for those of the longest one.
    pub fn new(heap: Global) -> Result<Marks, AllocError>
        ensures none { IfOk result (λ m. m.placed.items ≡ []) }
        ensures end { IfOk result (λ m. m.end ≡ Ok 0) }
    {
        let placed = Vec::with_capacity(heap, TEXT)?;
        Ok(Marks { placed, end: Ok(0) })
    }

    // Adds the marks of the text; answers where they end.
    fn scan_all(&mut self, text: &[u8]) -> Result<usize, MarkFault>
        requires fresh { vec_len self.old.placed ≡ 0 }
        requires short { length text.now ≤ 8192 }
        ensures few { vec_len self.new.placed ≤ length text.now }
        ensures scanned { Scanned text.now 0 self.new.placed.items (ending result) }
    {
        let mut rest = text;
        while let Some((first, behind)) = rest.split_first() {
            if *first == b' ' {
                rest = behind;
                continue;
            }
            let place = text.len() - rest.len();
            let (part, behind) = rest.split_at(1 + run_len(Kind::of(*first), behind));
            let mark = spelled(part).ok_or(MarkFault::Strange(place))?;
            self.placed.push_reserved(Placed { mark, place });
            rest = behind;
        }
        Ok(text.len())
    }

    // Replaces the marks by those of the text; of one over 8,192 bytes, by those of the first 8,192.
    pub fn scan(&mut self, text: &[u8])
        ensures few { vec_len self.new.placed ≤ length text.now }
        ensures bounded { vec_len self.new.placed ≤ 8192 }
        ensures scanned { Scanned (take 8192 text.now) 0 self.new.placed.items (ending self.new.end) }
    {
        self.placed.clear();
        let head = &text[..TEXT.min(text.len())];
        self.end = self.scan_all(head);
    }
}
