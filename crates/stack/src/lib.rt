// A stack whose memory is lent to it.
#![tactic(auto)]

ghost use Rattle.std.specs.Prelude.{◌≡◌, [], length};
ghost use Rattle.stack.specs.Items.{items, room, Pushed, Popped};

pub mod slots;

use slots::Stack;

impl<'a, T: Copy> Stack<'a, T> {
    // An empty stack over the slots; what they hold does not matter.
    pub fn new(slots: &'a mut [T]) -> Stack<'a, T>
        ensures empty { items result ≡ [] }
        ensures room { room result ≡ length slots.old }
    {
        Stack { slots, len: 0 }
    }

    pub fn len(&self) -> usize
        ensures { result ≡ length (items self.now) }
    {
        self.len
    }

    // Adds an element, or hands it back where every slot is in use.
    #[tactic(auto, using(std::proofs::lemmas::List::take_more_set))]
    pub fn push(&mut self, x: T) -> Result<(), T>
        ensures pushed { Pushed self.old self.new x result }
        ensures room { room self.new ≡ room self.old }
    {
        // Stays (4): tried `get_mut`, the proof didn't close: once a slot was lent, nothing is known of the slots.
        if self.len >= self.slots.len() {
            return Err(x);
        }
        self.slots[self.len] = x;
        self.len += 1;
        Ok(())
    }

    // Takes the newest element.
    #[tactic(auto, using(std::proofs::lemmas::List::take_more))]
    pub fn pop(&mut self) -> Option<T>
        ensures popped { Popped self.old self.new result }
        ensures room { room self.new ≡ room self.old }
    {
        self.len = self.len.checked_sub(1)?;
        Some(self.slots[self.len])
    }
}
