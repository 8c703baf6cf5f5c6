//! The statements of a function's body.

ghost use Rattle.std.specs.Prelude.{◌≡◌, true, false, IfOk, map};
ghost use Rattle.c_kernel.specs.declared.program.Stmt.TheVariants as typed;
ghost use Rattle.c_check.specs.Program.{body_item};
ghost use Rattle.c_check.specs.Statement.{walk_all, walk_as, scoped, one, walked, walked_item, walked_items, walked_guarded, walked_for};
ghost use Rattle.c_check.specs.Told.{Walks, within};

mod conditional;

use crate::form::{block_of, do_of, for_of, while_of};
use crate::judge::{Answer, Names};
use crate::parts::{both, gather_inner};
use crate::walker::{Around, Walker};
use c_kernel::program::{Expr as Term, Stmt as Typed};
use c_tree::tree::{Block, BlockItem, Expr, ForStart, SimpleStatement, Stmt};
use sqlite_items::{Boxed, Items};

// The clauses of a `for`.
type Head<'s> = (
    &'s Option<ForStart>,
    &'s Option<Expr>,
    &'s Option<SimpleStatement>,
);

impl Walker {
    /// The items of a function's body, which no loop is around.
    pub fn body_items(
        &mut self,
        around: Around<'_>,
        items: &[BlockItem<Stmt>],
    ) -> Answer<Items<Typed>>
        requires { around.looping ≡ false }
        ensures { IfOk result (λ found. Walks self.old self.new found (walk_all (map (within around.entry body_item) items.now))) }
    {
        self.block_items(around, items)
    }

    // What a statement is found to be. Its broken rules are noted, and its variables come into scope.
    #[cycle(statements)]
    #[tactic(auto, using(std::proofs::Common::append_assoc))]
    fn statement(&mut self, around: Around<'_>, s: &Stmt) -> Answer<Boxed<Typed>>
        ensures { IfOk result (λ found. Walks self.old self.new found (within around.entry walked s.now around.entry.looping)) }
    {
        let known = around.known;
        match s {
            Stmt::Empty(_) => self.judge.nothing(),
            Stmt::Break(at) => self.judge.loop_word(around.looping, *at, Typed::Break),
            Stmt::Continue(at) => self.judge.loop_word(around.looping, *at, Typed::Continue),
            Stmt::Block(b) => self.block_statement(around, b),
            Stmt::If {
                test,
                then,
                arms,
                otherwise,
                ..
            } => self.branches(around, (test, then.get()), arms, otherwise),
            Stmt::While { test, body, .. } => self.while_loop(around, test, body.get()),
            Stmt::DoWhile { body, test, .. } => self.do_loop(around, test, body.get()),
            Stmt::For {
                start,
                test,
                step,
                body,
                ..
            } => self.for_loop(around, (start, test, step), body.get()),
            Stmt::Return { at, value } => self.return_statement(around, *at, value),
            Stmt::Print {
                format,
                arguments,
                ..
            } => self.print(known, format, arguments),
            Stmt::Mark(_) => self.judge.checkpoint(),
            Stmt::Simple(x) => self.simple_statement(known, x),
            Stmt::Free { pointer, .. } => self.free(known, pointer),
            Stmt::Mpi(c) => self.mpi_statement(known, c),
        }
    }

    // What an item of a block is found to be.
    #[cycle(statements)]
    fn block_item(&mut self, around: Around<'_>, item: &BlockItem<Stmt>) -> Answer<Boxed<Typed>>
        ensures { IfOk result (λ found. Walks self.old self.new found (within around.entry walked_item around.entry.looping item.now)) }
    {
        match item {
            BlockItem::Declaration(d) => self.declaration_statement(around.known, d),
            BlockItem::Statement(s) => self.statement(around, s),
        }
    }

    // The items of a block in order.
    #[cycle(statements)]
    #[tactic(auto, using(std::proofs::Common::append_assoc))]
    fn block_items(&mut self, around: Around<'_>, items: &[BlockItem<Stmt>]) -> Answer<Items<Typed>>
        ensures { IfOk result (λ found. Walks self.old self.new found (within around.entry walked_items around.entry.looping items.now)) }
    {
        let mut found = Some(Items::new(self.judge.alloc));
        for item in items {
            let one = self.block_item(around, item)?;
            found = gather_inner(found, one)?;
        }
        Ok(found)
    }

    // A block, which is a scope of its own.
    #[cycle(statements)]
    fn block(&mut self, around: Around<'_>, b: &Block<Stmt>) -> Answer<Items<Typed>>
        ensures { IfOk result (λ found. Walks self.old self.new found (scoped (within around.entry walked_items around.entry.looping b.now.items))) }
    {
        self.scope.enter(self.judge.alloc)?;
        let found = self.block_items(around, b.items.as_slice())?;
        self.scope.leave();
        Ok(found)
    }

    #[cycle(statements)]
    fn block_statement(&mut self, around: Around<'_>, b: &Block<Stmt>) -> Answer<Boxed<Typed>>
        ensures { IfOk result (λ found. Walks self.old self.new found (walk_as typed.Block (scoped (within around.entry walked_items around.entry.looping b.now.items)))) }
    {
        let steps = self.block(around, b)?;
        block_of(self.judge.alloc, steps)
    }

    // ---- loops

    // A test and the statement under it.
    #[cycle(statements)]
    #[tactic(auto, using(std::proofs::Common::append_assoc), unfolding(crate::specs::Statement::guarded))]
    fn guarded(
        &mut self,
        around: Around<'_>,
        test: &Expr,
        body: &Stmt,
    ) -> Answer<(Boxed<Term>, Boxed<Typed>)>
        ensures { IfOk result (λ found. Walks self.old self.new found (within around.entry walked_guarded around.entry.looping test.now body.now)) }
    {
        let scope = &self.scope;
        let known = around.known;
        let test = self.judge.condition(Names { known, scope }, test)?;
        let body = self.statement(around, body)?;
        Ok(both(test, body))
    }

    #[cycle(statements)]
    fn while_loop(&mut self, around: Around<'_>, test: &Expr, body: &Stmt) -> Answer<Boxed<Typed>>
        ensures { IfOk result (λ found. Walks self.old self.new found (walk_as (λ p. typed.While p.0 (one p.1)) (within around.entry walked_guarded true test.now body.now))) }
    {
        let looping = true;
        let parts = self.guarded(Around { looping, ..around }, test, body)?;
        while_of(self.judge.alloc, parts)
    }

    #[cycle(statements)]
    fn do_loop(&mut self, around: Around<'_>, test: &Expr, body: &Stmt) -> Answer<Boxed<Typed>>
        ensures { IfOk result (λ found. Walks self.old self.new found (walk_as (λ p. typed.DoWhile (one p.1) p.0) (within around.entry walked_guarded true test.now body.now))) }
    {
        let looping = true;
        let parts = self.guarded(Around { looping, ..around }, test, body)?;
        do_of(self.judge.alloc, parts)
    }

    // A `for`, whose head and body are a scope of their own.
    #[cycle(statements)]
    fn for_loop(&mut self, around: Around<'_>, head: Head<'_>, body: &Stmt) -> Answer<Boxed<Typed>>
        ensures { IfOk result (λ found. Walks self.old self.new found (scoped (within around.entry walked_for head.entry.0.now head.entry.1.now head.entry.2.now body.now))) }
    {
        self.scope.enter(self.judge.alloc)?;
        let found = self.for_parts(around, head, body)?;
        self.scope.leave();
        Ok(found)
    }

    // A `for` in its scope.
    #[cycle(statements)]
    #[tactic(auto, using(std::proofs::Common::append_assoc))]
    fn for_parts(&mut self, around: Around<'_>, head: Head<'_>, body: &Stmt) -> Answer<Boxed<Typed>>
        ensures { IfOk result (λ found. Walks self.old self.new found (within around.entry walked_for head.entry.0.now head.entry.1.now head.entry.2.now body.now)) }
    {
        let known = around.known;
        let start = self.start(known, head.0)?;
        let scope = &self.scope;
        let test = self.judge.loop_test(Names { known, scope }, head.1)?;
        let step = self.judge.loop_step(Names { known, scope }, head.2)?;
        let looping = true;
        let body = self.statement(Around { looping, ..around }, body)?;
        for_of(self.judge.alloc, start, test, step, body)
    }
}
