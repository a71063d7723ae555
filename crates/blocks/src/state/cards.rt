// Whether the notes meet a block's card, and where blocks start.
ghost use Rattle.std.specs.Prelude.{◌≡◌, ◌<◌, true, length, ◌==◌};
ghost use Rattle.std.specs.Option.{option_copied};
ghost use Rattle.std.specs.List.{find};
ghost use Rattle.rules.specs.Cards.{met?, entry, starts?, enters?, Block};
ghost use Rattle.blocks.specs.Meeting.{meet_one?, seen_next, seen_in, FirstBelow};
ghost use Rattle.blocks.specs.View.{view, known, count, noted};

use super::State;
use crate::node::Id;
use isa::card::{Block, Slot};
use isa::kinds::Register;

impl State {
    // Meets a card at one register; `first` has the first expression of each variable.
    // Stays (1): the new form is no plainer: this is a test, and its caller would turn an `Option<()>` back into
    // one by `is_some()`.
    fn meet(&self, first: &mut [Option<Id>; 32], slot: Slot, r: Register) -> bool
        requires lowr { r.number < 32 }
        requires known { FirstBelow (count self.now) first.old }
        ensures answer { result ≡ meet_one? (seen_in (known self.now) first.old) slot (noted self.now r) }
        ensures after { result ≡ true → seen_in (known self.now) first.new ≡ seen_next (seen_in (known self.now) first.old) slot (noted self.now r) }
        ensures below { FirstBelow (count self.now) first.new }
    {
        let Some((c, v)) = slot else {
            return true;
        };
        let Some(x) = self.coloured(c, r) else {
            return false;
        };
        let at = v.number as usize;
        match first[at] {
            Some(y) => self.table.same(x, y),
            None => {
                first[at] = Some(x);
                true
            }
        }
    }

    // Whether each coloured register has a note of that colour, and registers with one variable the
    // same expression.
    pub(super) fn meets(&self, card: &[Slot; 32]) -> bool
        ensures { result ≡ met? card.now (view self.now).notes }
    {
        let mut first: [Option<Id>; 32] = [None; 32];
        for (r, slot) in card.iter().enumerate() {
            if !self.meet(&mut first, *slot, Register { number: r as u8 }) {
                return false;
            }
        }
        true
    }

    // Whether a block starts there, and its card is met.
    // Stays (5): no plainer: the place is a number that a jump's register has, and is looked up among the blocks.
    pub(super) fn enters(&self, blocks: &[Block], place: u32) -> bool
        ensures { result ≡ enters? (entry blocks.now place) (view self.now).notes }
    {
        find_block(blocks, place).is_some_and(|block| self.meets(&block.card))
    }
}

// The block that starts at a place.
fn find_block(blocks: &[Block], place: u32) -> Option<&Block>
    ensures { option_copied result ≡ find (λ (b : Block). b.start == place) blocks.now }
{
    blocks.iter().find(|b| b.start == place)
}

pub(super) fn starts(blocks: &[Block], place: u32) -> bool
    ensures { result ≡ starts? (entry blocks.now place) }
{
    find_block(blocks, place).is_some()
}
