// What may be seen of the marks of a text.
ghost use Rattle.std.specs.Prelude.{◌≡◌};

use crate::fault::MarkFault;
use crate::text::Marks;
use grammar::mark::Placed;

impl Marks {
    // The marks, in the order of the text.
    pub fn placed(&self) -> &[Placed]
        ensures { result.now ≡ self.now.placed.items }
    {
        self.placed.as_slice()
    }

    // Where they end: at the text's end, or at a strange mark.
    pub fn end(&self) -> Result<usize, MarkFault>
        ensures { result ≡ self.now.end }
    {
        self.end
    }
}
