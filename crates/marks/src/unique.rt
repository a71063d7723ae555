// What the rules of spelling and of grammar make of a text together.
ghost use Rattle.std.specs.Prelude.{◌≡◌};
ghost use Rattle.marks.specs.Texts.{HasMarks, MarksAreUnique, JudgedOnce, TreeIsUnique};

// How many readings a text has: one. Every text has a list of marks, with an end, and no other;
// these are one plan or have one first fault; and the plan is one tree.
pub fn marks_are_unique() -> u8
    ensures one { result ≡ 1 }
    ensures some { HasMarks }
    ensures marks { MarksAreUnique }
    ensures judged { JudgedOnce }
    ensures tree { TreeIsUnique }
{
    1
}
