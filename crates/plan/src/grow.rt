// Filling the tables of a plan.
ghost use Rattle.std.specs.Prelude.{◌≡◌, ◌+◌, ◌-◌, ◌<◌, ◌≤◌, [], ◌∷◌, ◌++◌, IfOk, vec_len, slice_index_or, slice_set};
ghost use Rattle.plan.specs.declared.tree.Statement.TheVariants.{Repeat, End};
ghost use Rattle.plan.specs.Plans.{spent};
ghost use Rattle.plan.specs.Showing.{with_body};
ghost use Rattle.plan.specs.Tables.{reach, roots, own as own_of, loop};

use crate::limits::TEXT;
use crate::repeats::OpenRepeat;
use crate::tables::Plan;
use crate::tree::{Expression, Node, NodeId, Statement};
use std::alloc::{AllocError, Global};

impl Statement {
    // The instructions that it needs beside two for each of its nodes.
    fn own(&self) -> u32
        ensures { result ≡ own_of self.now }
    {
        match self {
            Statement::Let(..) | Statement::Put(..) => 2,
            Statement::Repeat { .. } => 14,
            Statement::End { .. } => 0,
        }
    }

    // How many REPEATs it is.
    fn loops(&self) -> u32
        ensures { result ≡ loop self.now }
    {
        u32::from(matches!(self, Statement::Repeat { .. }))
    }

    // A REPEAT with this body; any other statement as it is.
    fn with_body(self, body: u32) -> Statement
        ensures { result ≡ with_body self body }
    {
        match self {
            Statement::Repeat { count, .. } => Statement::Repeat { count, body },
            other => other,
        }
    }
}

impl Plan {
    // An empty plan, with room for that of the longest text.
    pub(crate) fn new(heap: Global) -> Result<Plan, AllocError>
        ensures nodes { IfOk result (λ p. p.nodes.items ≡ []) }
        ensures statements { IfOk result (λ p. p.statements.items ≡ []) }
    {
        let nodes = Vec::with_capacity(heap, TEXT)?;
        let statements = Vec::with_capacity(heap, TEXT)?;
        Ok(Plan {
            nodes,
            statements,
            own: 0,
            repeats: 0,
        })
    }

    // Makes the plan empty.
    pub(crate) fn clear(&mut self)
        ensures nodes { self.new.nodes.items ≡ [] }
        ensures statements { self.new.statements.items ≡ [] }
        ensures own { self.new.own ≡ 0 }
    {
        self.nodes.clear();
        self.statements.clear();
        self.own = 0;
        self.repeats = 0;
    }

    // One node more.
    pub(crate) fn add_node(&mut self, node: Node) -> NodeId
        requires room { vec_len self.old.nodes < 8192 }
        requires children { reach node ≤ vec_len self.old.nodes }
        ensures nodes { self.new.nodes.items ≡ self.old.nodes.items ++ (node ∷ []) }
        ensures statements { self.new.statements ≡ self.old.statements }
        ensures own { self.new.own ≡ self.old.own }
        ensures value { result.index ≡ vec_len self.old.nodes }
        ensures len { vec_len self.new.nodes ≡ vec_len self.old.nodes + 1 }
    {
        let index = self.nodes.len();
        self.nodes.push_reserved(node);
        NodeId { index }
    }

    // One statement more.
    // Stays (5): no plainer: that there is room holds before and may not behind it, so it is no invariant.
    pub(crate) fn add_statement(&mut self, statement: Statement)
        requires room { vec_len self.old.statements < 8192 }
        requires roots { roots statement ≤ vec_len self.old.nodes }
        ensures nodes { self.new.nodes ≡ self.old.nodes }
        ensures statements { self.new.statements.items ≡ self.old.statements.items ++ (statement ∷ []) }
        ensures own { self.new.own ≡ self.old.own + own_of statement }
        ensures len { vec_len self.new.statements ≡ vec_len self.old.statements + 1 }
    {
        self.own += statement.own();
        self.repeats += statement.loops();
        self.statements.push_reserved(statement);
    }

    // Writes how many instructions the lines in a REPEAT need into its entry.
    pub(crate) fn set_body(&mut self, at: usize, body: u32)
        requires { at < vec_len self.old.statements }
        ensures nodes { self.new.nodes ≡ self.old.nodes }
        ensures statements { self.new.statements.items ≡ slice_set self.old.statements.items at (with_body (slice_index_or self.old.statements.items at (End 0)) body) }
        ensures own { self.new.own ≡ self.old.own }
        ensures len { vec_len self.new.statements ≡ vec_len self.old.statements }
    {
        self.statements[at] = self.statements[at].with_body(body);
    }

    // A REPEAT with this count begins.
    pub(crate) fn open_repeat(&mut self, count: Expression) -> OpenRepeat
        requires room { vec_len self.old.statements < 8192 }
        requires inside { count.root.index < vec_len self.old.nodes }
        ensures nodes { self.new.nodes ≡ self.old.nodes }
        ensures statements { self.new.statements.items ≡ self.old.statements.items ++ (Repeat count 0 ∷ []) }
        ensures own { self.new.own ≡ self.old.own + 14 }
        ensures len { vec_len self.new.statements ≡ vec_len self.old.statements + 1 }
        ensures entry { result.statement ≡ vec_len self.old.statements }
        ensures need { result.need ≡ spent self.new }
    {
        let statement = self.statements.len();
        self.add_statement(Statement::Repeat { count, body: 0 });
        let need = self.spent();
        OpenRepeat { statement, need }
    }

    // A REPEAT ends.
    pub(crate) fn end_repeat(&mut self, repeat: OpenRepeat)
        requires room { vec_len self.old.statements < 8192 }
        requires entry { repeat.statement < vec_len self.old.statements }
        requires need { repeat.need ≤ spent self.old }
        ensures nodes { self.new.nodes ≡ self.old.nodes }
        ensures statements { self.new.statements.items ≡ slice_set self.old.statements.items repeat.statement (with_body (slice_index_or self.old.statements.items repeat.statement (End 0)) (spent self.old - repeat.need)) ++ (End (spent self.old - repeat.need) ∷ []) }
        ensures own { self.new.own ≡ self.old.own }
        ensures len { vec_len self.new.statements ≡ vec_len self.old.statements + 1 }
    {
        let body = self.spent() - repeat.need;
        self.set_body(repeat.statement, body);
        self.add_statement(Statement::End { body });
    }
}
