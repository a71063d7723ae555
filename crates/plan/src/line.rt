// Reading the lines of a plan.
ghost use Rattle.std.specs.Prelude.{◌≡◌, ◌<◌, [], length, IfOk, Some, OnOk};
ghost use Rattle.grammar.proofs.Acceptor.{of_address, line as line_state, naming, want, nothing, same};
ghost use Rattle.grammar.specs.Begins.{next_byte};
ghost use Rattle.stack.specs.Items.{items};
ghost use Rattle.plan.specs.Lining.{Simple, LineEnds, Names, Begun, ExpressionSays, Laid, Placed, StatementSays, CountSays, starts, Ready, LineTells};
ghost use Rattle.plan.specs.Reading.{rest, first, Goes, Quiet, Onward};

use crate::fault::ReadFault;
use crate::limits::REPEATS;
use crate::nesting::Nesting;
use crate::reader::Reader;
use crate::repeats::OpenRepeat;
use crate::tree::{Expression, Statement};
use grammar::mark::Mark;
use grammar::variable::Variable;
use stack::slots::Stack;

impl Reader {
    // Passes over a line's end; the text's end is one.
    fn line_end(&mut self) -> Result<(), ReadFault>
        ensures goes { Goes self.old self.new }
        ensures quiet { Quiet self.old self.new }
        ensures plan { self.new.plan ≡ self.old.plan }
        ensures says { LineEnds self.old self.new result }
    {
        match self.peek() {
            Some(Mark::LineEnd) => {
                self.skip();
                Ok(())
            }
            Some(_) => self.refuse(),
            None => {
                self.place()?;
                Ok(())
            }
        }
    }

    // The variable that must come.
    fn name(&mut self) -> Result<Variable, ReadFault>
        ensures goes { Goes self.old self.new }
        ensures quiet { Quiet self.old self.new }
        ensures plan { self.new.plan ≡ self.old.plan }
        ensures says { Names self.old self.new result }
    {
        let Some(Mark::Variable(variable)) = self.peek() else {
            return self.refuse();
        };
        self.skip();
        Ok(variable)
    }

    // An expression, with the byte at which it begins.
    fn expression(&mut self) -> Result<Expression, ReadFault>
        ensures goes { Goes self.old self.new }
        ensures quiet { Quiet self.old self.new }
        ensures begun { IfOk result (λ e. Begun self.old self.new e) }
        ensures says { ExpressionSays self.old self.new 0 result }
    {
        let place = self.place()?;
        let root = self.expr(&mut Nesting { depth: 0 })?;
        Ok(Expression { root, place })
    }

    // A line behind its LET.
    // Stays (2): no plainer: this and the next are two lines of the grammar, with other parts in another order.
    fn let_line(&mut self) -> Result<Statement, ReadFault>
        ensures goes { Goes self.old self.new }
        ensures laid { IfOk result (λ s. Laid self.old self.new s) }
        ensures placed { IfOk result (λ s. Placed [] self.old self.new s) }
        ensures says { StatementSays self.old self.new 0 naming result }
    {
        let variable = self.name()?;
        self.pass(Mark::Equals)?;
        let value = self.expression()?;
        self.line_end()?;
        Ok(Statement::Let(variable, value))
    }

    // A line behind its PUT.
    fn put_line(&mut self) -> Result<Statement, ReadFault>
        ensures goes { Goes self.old self.new }
        ensures laid { IfOk result (λ s. Laid self.old self.new s) }
        ensures placed { IfOk result (λ s. Placed (next_byte (rest self.old)) self.old self.new s) }
        ensures says { StatementSays self.old self.new 0 (λ K. want nothing same same (of_address K)) result }
    {
        let address = self.expression()?;
        self.pass(Mark::Comma)?;
        let value = self.expression()?;
        self.line_end()?;
        Ok(Statement::Put(address, value))
    }

    // A line behind its REPEAT: its count.
    fn repeat_line(&mut self) -> Result<Expression, ReadFault>
        ensures goes { Goes self.old self.new }
        ensures quiet { Quiet self.old self.new }
        ensures begun { IfOk result (λ e. Begun self.old self.new e) }
        ensures says { CountSays self.old self.new 0 result }
    {
        let count = self.expression()?;
        self.line_end()?;
        Ok(count)
    }

    // A LET or PUT line, which begins with this mark; no line begins with another mark.
    fn statement(&mut self, mark: Mark) -> Result<Statement, ReadFault>
        requires seen { Some mark ≡ first (rest self.old) }
        requires simple { Simple mark }
        ensures goes { Goes self.old self.new }
        ensures less { OnOk result (length (rest self.new) < length (rest self.old)) }
        ensures laid { IfOk result (λ s. Laid self.old self.new s) }
        ensures placed { IfOk result (λ s. Placed [] self.old self.new s) }
        ensures says { StatementSays self.old self.new 0 line_state result }
    {
        match mark {
            Mark::Let => {
                self.skip();
                self.let_line()
            }
            Mark::Put => {
                self.skip();
                self.put_line()
            }
            _ => self.refuse(),
        }
    }

    // A line that begins with REPEAT.
    // Stays (5): no plainer: a struct of the reader and the open REPEATs would hold two `&mut`, and each
    // call on a line would go through it.
    fn repeat(&mut self, repeats: &mut Stack<'_, OpenRepeat>) -> Result<(), ReadFault>
        requires ready { Ready self.old repeats.old }
        requires seen { Some Mark.Repeat ≡ first (rest self.old) }
        ensures ready { Ready self.new repeats.new }
        ensures onward { Onward self.old self.new }
        ensures less { OnOk result (length (rest self.new) < length (rest self.old)) }
        ensures starts { OnOk result (starts self.new ≡ starts self.old) }
        ensures says { LineTells self.old self.new 0 (items repeats.old) (items repeats.new) result }
    {
        if repeats.len() >= REPEATS {
            return self.too_deep();
        }
        self.skip();
        let count = self.repeat_line()?;
        let repeat = self.plan.open_repeat(count);
        let _ = repeats.push(repeat);
        Ok(())
    }

    // A line that begins with END.
    fn end(&mut self, repeats: &mut Stack<'_, OpenRepeat>) -> Result<(), ReadFault>
        requires ready { Ready self.old repeats.old }
        requires seen { Some Mark.End ≡ first (rest self.old) }
        ensures ready { Ready self.new repeats.new }
        ensures onward { Onward self.old self.new }
        ensures less { OnOk result (length (rest self.new) < length (rest self.old)) }
        ensures starts { OnOk result (starts self.new ≡ starts self.old) }
        ensures says { LineTells self.old self.new 0 (items repeats.old) (items repeats.new) result }
    {
        let Some(repeat) = repeats.pop() else {
            return self.refuse();
        };
        self.skip();
        self.line_end()?;
        self.plan.end_repeat(repeat);
        Ok(())
    }

    // One line, which begins with this mark.
    pub(crate) fn line(
        &mut self,
        mark: Mark,
        repeats: &mut Stack<'_, OpenRepeat>,
    ) -> Result<(), ReadFault>
        requires ready { Ready self.old repeats.old }
        requires seen { Some mark ≡ first (rest self.old) }
        ensures ready { Ready self.new repeats.new }
        ensures onward { Onward self.old self.new }
        ensures less { OnOk result (length (rest self.new) < length (rest self.old)) }
        ensures starts { OnOk result (starts self.new ≡ starts self.old) }
        ensures says { LineTells self.old self.new 0 (items repeats.old) (items repeats.new) result }
    {
        match mark {
            Mark::LineEnd => {
                self.skip();
                Ok(())
            }
            Mark::Repeat => self.repeat(repeats),
            Mark::End => self.end(repeats),
            _ => {
                let statement = self.statement(mark)?;
                self.plan.add_statement(statement);
                Ok(())
            }
        }
    }
}
