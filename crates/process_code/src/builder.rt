// Compiling a statement: a spot for each of its rests, and the ways between them.

ghost use Rattle.std.specs.Prelude.{◌≡◌, ◌≤◌, ◌+◌, ◌-◌, ℕ, Bool, length, IfOk};
ghost use Rattle.v_design.specs.Plain.{statement_of};
ghost use Rattle.v_design.specs.Trees.{Block};
ghost use Rattle.v_design.specs.PlainLemmas.{statements_of, items_of};
ghost use Rattle.v_design.specs.Sized.{IsSizedStatement, AreSizedStatements, AreSizedItems};
ghost use Rattle.process_code.specs.Compiling.{IsSizedHead, IsInStep, MayCompile, Places, Turned, Compiles, CompilesItems};

use crate::code::{Head, Spot, Ways};
use std::alloc::Global;
use v_design::{CaseItem, FlatStmt};
use vf_base::NoMemory;

/// The code as far as it is compiled.
#[derive(Drop)]
pub struct Builder<'d> {
    pub spots: Vec<Spot<'d>>,
    pub ways: Vec<Ways>,
    pub repeats: usize,
}

impl<'d> Builder<'d> {
    /// A spot with this head before the rest of a position. Its ways are open.
    fn place(&mut self, alloc: Global, head: Head<'d>, next: usize) -> Result<usize, NoMemory>
        requires sized { IsSizedHead head }
        requires in_step { IsInStep self.old }
        ensures { IfOk result (λ own. Places self.old self.new head.entry next own × IsInStep self.new) }
    {
        let ways = Ways {
            inner: 0,
            other: 0,
            items: Vec::new(alloc),
        };
        self.spots.push(Spot { head, next })?;
        self.ways.push(ways)?;
        Ok(self.spots.len())
    }

    /// Sets the ways of the spot at a position.
    fn lead(&mut self, own: usize, ways: Ways)
        requires there { (1 ≤ own) × (own ≤ length self.old.ways.items) }
        ensures { Turned self.old self.new (own - 1) ways }
    {
        self.ways[own - 1] = ways;
    }

    /// The spots of a statement before the rest of a position. It answers the position at which the statement begins.
    #[cycle(compile)]
    pub fn statement(
        &mut self,
        alloc: Global,
        statement: &'d FlatStmt,
        next: usize,
    ) -> Result<usize, NoMemory>
        requires sized { IsSizedStatement (statement_of statement.now) }
        requires may { MayCompile self.old next }
        ensures { IfOk result (λ entry. Compiles self.old self.new (statement_of statement.now) next entry) }
    {
        match statement {
            FlatStmt::Null => Ok(next),
            FlatStmt::Block { statements, .. } => {
                let entry = self.block(alloc, statements, next)?;
                Ok(entry)
            }
            FlatStmt::If { first, second, .. } => {
                let own = self.place(alloc, Head::Statement(statement), next)?;
                let inner = self.statement(alloc, first, next)?;
                let other = self.statement(alloc, second, next)?;
                self.lead(own, Ways::new(alloc, inner, other));
                Ok(own)
            }
            FlatStmt::Case { items, default, .. } => {
                let own = self.place(alloc, Head::Statement(statement), next)?;
                let items = self.items(alloc, items, next)?;
                let other = self.statement(alloc, default, next)?;
                self.lead(
                    own,
                    Ways {
                        inner: 0,
                        other,
                        items,
                    },
                );
                Ok(own)
            }
            FlatStmt::For { body, .. } => {
                let own = self.place(alloc, Head::Statement(statement), next)?;
                let test = self.place(alloc, Head::Test(statement), next)?;
                let advance = self.place(alloc, Head::Advance(statement), test)?;
                let inner = self.statement(alloc, body, advance)?;
                self.lead(test, Ways::new(alloc, inner, next));
                self.lead(own, Ways::new(alloc, test, 0));
                Ok(own)
            }
            FlatStmt::While { body, .. } => {
                let own = self.place(alloc, Head::Statement(statement), next)?;
                let inner = self.statement(alloc, body, own)?;
                self.lead(own, Ways::new(alloc, inner, next));
                Ok(own)
            }
            FlatStmt::Repeat { body, .. } => {
                let number = self.repeats;
                let own = self.place(alloc, Head::Statement(statement), next)?;
                self.repeats += 1;
                let turns = self.place(alloc, Head::Turns(statement, number), next)?;
                let inner = self.statement(alloc, body, turns)?;
                self.lead(turns, Ways::new(alloc, inner, 0));
                self.lead(own, Ways::new(alloc, turns, number));
                Ok(own)
            }
            FlatStmt::Forever { body, .. } => {
                let own = self.place(alloc, Head::Statement(statement), next)?;
                let inner = self.statement(alloc, body, own)?;
                self.lead(own, Ways::new(alloc, inner, 0));
                Ok(own)
            }
            FlatStmt::Delay { body, .. } => {
                let own = self.place(alloc, Head::Statement(statement), next)?;
                let inner = self.statement(alloc, body, next)?;
                self.lead(own, Ways::new(alloc, inner, 0));
                Ok(own)
            }
            FlatStmt::EventControl { body, .. } => {
                let own = self.place(alloc, Head::Statement(statement), next)?;
                let inner = self.statement(alloc, body, next)?;
                self.lead(own, Ways::new(alloc, inner, 0));
                Ok(own)
            }
            FlatStmt::Wait { body, .. } => {
                let own = self.place(alloc, Head::Statement(statement), next)?;
                let inner = self.statement(alloc, body, next)?;
                self.lead(own, Ways::new(alloc, inner, 0));
                Ok(own)
            }
            FlatStmt::Blocking { .. } => {
                let own = self.place(alloc, Head::Statement(statement), next)?;
                Ok(own)
            }
            FlatStmt::Nonblocking { .. } => {
                let own = self.place(alloc, Head::Statement(statement), next)?;
                Ok(own)
            }
            FlatStmt::Finish { .. } => {
                let own = self.place(alloc, Head::Statement(statement), next)?;
                Ok(own)
            }
        }
    }

    /// The spots of several statements. The last one is compiled first, since each stands before the next.
    #[cycle(compile)]
    fn block(
        &mut self,
        alloc: Global,
        statements: &'d [FlatStmt],
        next: usize,
    ) -> Result<usize, NoMemory>
        requires sized { AreSizedStatements (statements_of statements.now) }
        requires may { MayCompile self.old next }
        ensures { IfOk result (λ entry. Compiles self.old self.new (Block (statements_of statements.now)) next entry) }
    {
        let mut entry = next;
        let mut left = statements.len();
        'statements: while left > 0 {
            left -= 1;
            entry = self.statement(alloc, &statements[left], entry)?;
        }
        Ok(entry)
    }

    /// The spots of the items of a case.
    #[cycle(compile)]
    fn items(
        &mut self,
        alloc: Global,
        items: &'d [CaseItem],
        next: usize,
    ) -> Result<Vec<usize>, NoMemory>
        requires sized { (width : ℕ) × (signed : Bool) × AreSizedItems width signed (items_of items.now) }
        requires may { MayCompile self.old next }
        ensures { IfOk result (λ positions. CompilesItems self.old self.new (items_of items.now) next positions.items) }
    {
        let mut positions = Vec::new(alloc);
        for item in items {
            let entry = self.statement(alloc, &item.statement, next)?;
            positions.push(entry)?;
        }
        Ok(positions)
    }
}

impl Ways {
    /// Two ways.
    fn new(alloc: Global, inner: usize, other: usize) -> Ways
        ensures inner { result.inner ≡ inner }
        ensures other { result.other ≡ other }
    {
        Ways {
            inner,
            other,
            items: Vec::new(alloc),
        }
    }
}
