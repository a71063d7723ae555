// What comes next among the marks.
ghost use Rattle.std.specs.Prelude.{◌≡◌, ◌+◌, length, OnOk};
ghost use Rattle.plan.specs.Reading.{rest, first, tail, operator, sign, place_of, Refused, Exceeded, Goes, Passes, Leads};

use crate::fault::ReadFault;
use crate::reader::Reader;
use grammar::mark::Mark;
use isa::kinds::Arithmetic;
use marks::fault::MarkFault;

impl Reader {
    // The next mark, if there is one.
    pub(crate) fn peek(&self) -> Option<Mark>
        ensures { result ≡ first (rest self.now) }
    {
        self.marks.placed().get(self.at).map(|placed| placed.mark)
    }

    // Passes over the next mark.
    pub(crate) fn skip(&mut self)
        ensures rest { rest self.new ≡ tail (rest self.old) }
        ensures marks { self.new.marks ≡ self.old.marks }
        ensures plan { self.new.plan ≡ self.old.plan }
    {
        if self.at < self.marks.placed().len() {
            self.at += 1;
        }
    }

    // The byte of the next mark; behind the last one, that at which the text ends, or the fault of
    // a strange mark.
    pub(crate) fn place(&self) -> Result<usize, MarkFault>
        ensures { result ≡ place_of (rest self.now) self.now.marks.end }
    {
        match self.marks.placed().get(self.at) {
            Some(placed) => Ok(placed.place),
            None => self.marks.end(),
        }
    }

    // The fault of a mark with which no plan goes on.
    // Stays (2): no plainer: this and the next differ in the fault, and each has its own relation in the contract,
    // which one function over a closure could say only of what the closure answers.
    pub(crate) fn refuse<T>(&self) -> Result<T, ReadFault>
        ensures { Refused (rest self.now) self.now.marks.end result }
    {
        let place = self.place()?;
        Err(ReadFault::Grammar(place))
    }

    // The fault of a mark that passes its limit.
    pub(crate) fn too_deep<T>(&self) -> Result<T, ReadFault>
        ensures { Exceeded (rest self.now) self.now.marks.end result }
    {
        let place = self.place()?;
        Err(ReadFault::Nesting(place))
    }

    // The operator that comes next, if one does.
    pub(crate) fn operator(&self) -> Option<Arithmetic>
        ensures { result ≡ operator (first (rest self.now)) }
    {
        match self.peek() {
            Some(Mark::Operator(operator)) => Some(operator),
            _ => None,
        }
    }

    // The + or - that comes next, if one does.
    pub(crate) fn sign(&self) -> Option<Arithmetic>
        ensures { result ≡ sign (operator (first (rest self.now))) }
    {
        self.operator().filter(|operator| matches!(operator, Arithmetic::Add | Arithmetic::Sub))
    }

    // Passes over this mark, which must come.
    pub(crate) fn pass(&mut self, wanted: Mark) -> Result<(), ReadFault>
        ensures goes { Goes self.old self.new }
        ensures spare { OnOk result (length (rest self.new) + 1 ≡ length (rest self.old)) }
        ensures plan { self.new.plan ≡ self.old.plan }
        ensures leads { Leads self.old self.new wanted result }
        ensures says { Passes self.old self.new wanted result }
    {
        if self.peek() == Some(wanted) {
            self.skip();
            Ok(())
        } else {
            self.refuse()
        }
    }
}
