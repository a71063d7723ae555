// Reading an expression: its parts call each other in a cycle, and each turn has fewer marks left.
ghost use Rattle.std.specs.Prelude.{◌<◌, ◌≤◌, vec_len};
ghost use Rattle.language.specs.Plans.{node};
ghost use Rattle.plan.specs.Tables.{reach};
ghost use Rattle.grammar.proofs.Acceptor.{bracketed};
ghost use Rattle.plan.specs.Reading.{OneMore, Grew, Part, wrapped, tree_in, Stops, not_star, only_less, FactorSays, TermSays, SumSays, ExprSays};
ghost use Rattle.plan.specs.Trees.{tree_of, trees};

use crate::fault::ReadFault;
use crate::nesting::{Nest, Nesting};
use crate::reader::Reader;
use crate::tree::{Node, NodeId};
use grammar::mark::{Bracket, Mark};
use isa::kinds::Arithmetic;

impl Reader {
    // One node more.
    // Stays (5): no plainer: only behind a mark that was passed there is room to spare, so that is no
    // fact of the type.
    fn add(&mut self, node: Node) -> NodeId
        requires room { OneMore self.old }
        requires children { reach node ≤ vec_len self.old.plan.nodes }
        ensures { Grew 1 self.old self.new (tree_of (trees self.old.plan.nodes.items) node) result }
    {
        self.plan.add_node(node)
    }

    // The node of two that an operator joins.
    fn join(&mut self, operator: Arithmetic, left: NodeId, right: NodeId) -> NodeId
        requires room { OneMore self.old }
        requires left { left.index < vec_len self.old.plan.nodes }
        requires right { right.index < vec_len self.old.plan.nodes }
        ensures { Grew 1 self.old self.new (node operator (tree_in self.old left) (tree_in self.old right)) result }
    {
        self.add(Node::Binary(operator, left, right))
    }

    // The node of what stands in a bracket: a cell's for a square one.
    fn wrap(&mut self, bracket: Bracket, inner: NodeId) -> NodeId
        requires room { OneMore self.old }
        requires inner { inner.index < vec_len self.old.plan.nodes }
        ensures { Grew (wrapped bracket) self.old self.new (bracketed bracket (tree_in self.old inner)) result }
    {
        match bracket {
            Bracket::Round => inner,
            Bracket::Square => self.add(Node::Cell(inner)),
        }
    }

    // One sum, or two with < between them.
    #[cycle(expr_factor_sum_term)]
    pub(crate) fn expr(&mut self, nesting: &mut Nesting) -> Result<NodeId, ReadFault>
        ensures part { Part self.old self.new nesting.old nesting.new result }
        ensures says { ExprSays self.old self.new nesting.old.depth result }
    {
        let left = self.sum(nesting)?;
        let Some(Arithmetic::Lt) = self.operator() else {
            return Ok(left);
        };
        self.skip();
        let right = self.sum(nesting)?;
        Ok(self.join(Arithmetic::Lt, left, right))
    }

    // Terms joined by + or -, from the left.
    // Stays (2): a rule of the project: the readers of expr, sum, term and factor are four that call each
    // other in a cycle.
    #[cycle(expr_factor_sum_term)]
    fn sum(&mut self, nesting: &mut Nesting) -> Result<NodeId, ReadFault>
        ensures part { Part self.old self.new nesting.old nesting.new result }
        ensures stops { Stops only_less result self.new }
        ensures says { SumSays self.old self.new nesting.old.depth result }
    {
        let mut left = self.term(nesting)?;
        while let Some(operator) = self.sign() {
            self.skip();
            let right = self.term(nesting)?;
            left = self.join(operator, left, right);
        }
        Ok(left)
    }

    // Factors joined by *, from the left.
    // Stays (2): a rule of the project: the readers of expr, sum, term and factor are four that call each
    // other in a cycle.
    #[cycle(expr_factor_sum_term)]
    fn term(&mut self, nesting: &mut Nesting) -> Result<NodeId, ReadFault>
        ensures part { Part self.old self.new nesting.old nesting.new result }
        ensures stops { Stops not_star result self.new }
        ensures says { TermSays self.old self.new nesting.old.depth result }
    {
        let mut left = self.factor(nesting)?;
        while let Some(Arithmetic::Mul) = self.operator() {
            self.skip();
            let right = self.factor(nesting)?;
            left = self.join(Arithmetic::Mul, left, right);
        }
        Ok(left)
    }

    // A number, a variable, or an expression in parentheses or brackets.
    #[cycle(expr_factor_sum_term)]
    fn factor(&mut self, nesting: &mut Nesting) -> Result<NodeId, ReadFault>
        ensures part { Part self.old self.new nesting.old nesting.new result }
        ensures says { FactorSays self.old self.new nesting.old.depth result }
    {
        match self.peek() {
            Some(Mark::Number(number)) => {
                self.skip();
                Ok(self.add(Node::Number(number)))
            }
            Some(Mark::Variable(variable)) => {
                self.skip();
                Ok(self.add(Node::Variable(variable)))
            }
            Some(Mark::Open(bracket)) => {
                if nesting.is_full() {
                    return self.too_deep();
                }
                let guard = Nest::enter(nesting);
                self.skip();
                let inner = self.expr(guard.nesting)?;
                self.pass(Mark::Close(bracket))?;
                Ok(self.wrap(bracket, inner))
            }
            _ => self.refuse(),
        }
    }
}
