// Code for a plan, over twin registers. The tables may be any: what has no place in a module is left out.
ghost use Rattle.std.specs.Prelude.{◌≡◌, ◌+◌, ◌*◌, ◌<◌, ◌≤◌, length, vec_len};
ghost use Rattle.language.specs.Plans.{Plan};
ghost use Rattle.plan.specs.Tables.{Closed};
ghost use Rattle.translation.specs.Code.{set as set_twin, copy};
ghost use Rattle.translation.specs.Compile.{whole};
ghost use Rattle.compiler.specs.Emitting.{Adds, Emits, one, zeros, opened, closed as closed_by, stated, lasts, FitsStatement, next_counter};
ghost use Rattle.compiler.specs.Selecting.{Small, code_in};

use crate::half::Half;
use crate::line::{Single, Source};
use crate::lines::Lines;
use crate::twin::{COUNTERS, Twin, VALUES};
use isa::kinds::Arithmetic;
use plan::tree::{Node, Statement};

impl Lines {
    // The six variables start at 0.
    fn start(&mut self)
        ensures { Emits self.old self.new (zeros 6) 6 }
    {
        for number in 0..COUNTERS {
            self.set(Twin { number }, Source::Number(0));
        }
    }

    // The value of a REPEAT's count goes to its counter.
    fn count(&mut self, counter: Twin)
        ensures { Emits self.old self.new (one (set_twin counter.number (copy 10))) 1 }
    {
        let value = Twin { number: VALUES };
        self.set(counter, Source::Copy(value));
    }

    // A REPEAT, behind the code of its count: the count goes to the counter; the head, a block of its
    // own, goes to the exit once the counter is 0. The exit stands behind the body and the four lines
    // of the END.
    fn repeat(&mut self, counter: Twin, body: u32)
        ensures { body ≤ 1024 → Emits self.old self.new (opened counter.number (vec_len self.old.lines) body) 3 }
    {
        let value = Twin { number: VALUES };
        self.count(counter);
        self.begin(counter.number + 1);
        let head = 2 * self.lines.len() as u32;
        self.set(value, Source::Number(body.saturating_add(head + 12)));
        self.add(Single::Branch(counter, value));
    }

    // An END: counts down and goes back to the head, which stands two lines before the body. The exit
    // is a block of its own. Where no head stands that far before it, there is nothing to end.
    fn end(&mut self, counter: Twin, body: u32)
        ensures { body + 4 ≤ 2 * vec_len self.old.lines → Emits self.old self.new (closed_by counter.number (vec_len self.old.lines) body) 4 }
    {
        let value = Twin { number: VALUES };
        let back = body as usize + 4;
        let places = 2 * self.lines.len();
        if back <= places {
            let head = (places - back) as u32;
            self.set(value, Source::Number(1));
            self.set(counter, Source::Operation(Arithmetic::Sub, counter, value));
            self.set(value, Source::Number(head));
            self.add(Single::Jump(value));
            self.begin(counter.number);
        }
    }

    // The code of one statement, where `next` is the next REPEAT's counter; answers the one behind it.
    fn statement(
        &mut self,
        slots: &mut [Half],
        nodes: &[Node],
        statement: Statement,
        next: Twin,
    ) -> Twin
        ensures adds { FitsStatement nodes.now (length slots.old) next.number (vec_len self.old.lines) statement →
            Adds self.old self.new (stated nodes.now next.number (vec_len self.old.lines) statement) (lasts nodes.now statement) }
        ensures next { FitsStatement nodes.now (length slots.old) next.number (vec_len self.old.lines) statement →
            result.number ≡ next_counter next.number statement }
    {
        let value = Twin { number: VALUES };
        match statement {
            Statement::Let(variable, e) => {
                self.expression(slots, nodes, e.root, value);
                self.set(Twin::from(variable), Source::Copy(value));
                next
            }
            Statement::Put(address, word) => {
                let second = Twin { number: VALUES + 1 };
                self.expression(slots, nodes, address.root, value);
                self.expression(slots, nodes, word.root, second);
                self.add(Single::Store(value, second));
                next
            }
            Statement::Repeat { count, body } => {
                self.expression(slots, nodes, count.root, value);
                self.repeat(next, body);
                next.behind()
            }
            Statement::End { body } => {
                let counter = next.before();
                self.end(counter, body);
                counter
            }
        }
    }

    // The code of a plan, but for the halt behind it.
    pub fn select(&mut self, slots: &mut [Half], nodes: &[Node], statements: &[Statement])
        ensures { (P : Plan) → Small nodes.now statements.now P → Closed nodes.now → 1024 ≤ length slots.old → code_in self.new ≡ whole P }
    {
        self.clear();
        self.start();
        let mut next = Twin { number: COUNTERS };
        for statement in statements {
            next = self.statement(slots, nodes, *statement, next);
        }
    }
}
