//! Statements that hold no others, and the parts of a `for` that declare nothing.

ghost use Rattle.std.specs.Prelude.{◌≡◌, [], not, IfOk, Some};
ghost use Rattle.c_tree.specs.declared.kind.Kind.TheVariants.{LoopWord};
ghost use Rattle.c_kernel.specs.declared.program.Stmt.TheVariants as typed;
ghost use Rattle.c_rules.specs.Judged as nodes;
ghost use Rattle.c_check.specs.Expression as expressions;
ghost use Rattle.c_check.specs.Statement as walk;
ghost use Rattle.c_check.specs.Told.{Tells, Walks, among, knowing};

use crate::judge::{Answer, Judge, Known, Names};
use crate::parts::{alone, one};
use crate::walker::{Around, Walker};
use c_kernel::program::{Action, Expr as Term, Stmt as Typed};
use c_tree::Kind;
use c_tree::tree::{Expr, MpiCall, SimpleStatement, Text};
use sqlite_items::{Boxed, Items};

impl Judge {
    /// `break` or `continue`.
    pub fn loop_word<T: Drop>(&mut self, looping: bool, at: u32, word: T) -> Answer<Boxed<T>>
        ensures { IfOk result (λ found. Tells self.old self.new found (nodes.by (nodes.breaks (not looping) LoopWord at) word)) }
    {
        if looping {
            return Ok(Some(Boxed::new(self.alloc, word)?));
        }
        self.refuse(Kind::LoopWord, at)
    }

    /// An empty statement.
    pub fn nothing(&self) -> Answer<Boxed<Typed>>
        ensures { IfOk result (λ found. found ≡ Some (typed.Actions [])) }
    {
        let actions = Items::new(self.alloc);
        Ok(Some(Boxed::new(self.alloc, Typed::Actions(actions))?))
    }

    /// The mark of a checkpoint.
    pub fn checkpoint(&self) -> Answer<Boxed<Typed>>
        ensures { IfOk result (λ found. found ≡ Some typed.Mark) }
    {
        Ok(Some(Boxed::new(self.alloc, Typed::Mark)?))
    }

    /// A simple statement, as the actions that it is.
    pub fn simple_actions(&mut self, names: Names<'_>, s: &SimpleStatement) -> Answer<Items<Action>>
        ensures { IfOk result (λ found. Tells self.old self.new found (walk.seen_as walk.one (among names.entry walk.simple s.now))) }
    {
        let action = self.simple(names, s)?;
        alone(self.alloc, action)
    }

    /// The test of a `for`, which may be left out.
    pub fn loop_test(&mut self, names: Names<'_>, e: &Option<Expr>) -> Answer<Option<Boxed<Term>>>
        ensures { IfOk result (λ found. Tells self.old self.new found (nodes.perhaps (among names.entry walk.condition) e.now)) }
    {
        match e {
            None => Ok(Some(None)),
            Some(e) => match self.condition(names, e)? {
                None => Ok(None),
                Some(test) => Ok(Some(Some(test))),
            },
        }
    }

    /// What a `for` does after each turn, which may be left out.
    pub fn loop_step(
        &mut self,
        names: Names<'_>,
        s: &Option<SimpleStatement>,
    ) -> Answer<Option<Boxed<Action>>>
        ensures { IfOk result (λ found. Tells self.old self.new found (nodes.perhaps (among names.entry walk.simple) s.now)) }
    {
        match s {
            None => Ok(Some(None)),
            Some(s) => match self.simple(names, s)? {
                None => Ok(None),
                Some(action) => Ok(Some(Some(action))),
            },
        }
    }
}

impl Walker {
    /// `return`.
    #[tactic(auto, using(std::proofs::Common::append_assoc))]
    pub fn return_statement(
        &mut self,
        around: Around<'_>,
        at: u32,
        value: &Option<Expr>,
    ) -> Answer<Boxed<Typed>>
        ensures { IfOk result (λ found. Walks self.old self.new found (λ s. walk.staying (nodes.of_part (nodes.perhaps (knowing around.entry.known expressions.judged s) value.now) (walk.returned at around.entry.result_type)) s)) }
    {
        let known = around.known;
        let scope = &self.scope;
        let result_type = around.result_type;
        match value {
            None => self.judge.returned(at, result_type, None),
            Some(e) => match self.judge.expression(Names { known, scope }, e)? {
                None => Ok(None),
                Some(v) => self.judge.returned(at, result_type, Some(v)),
            },
        }
    }

    /// `printf`.
    #[tactic(auto, using(std::proofs::Common::append_assoc))]
    pub fn print(
        &mut self,
        known: Known<'_>,
        format: &Text,
        arguments: &Items<Expr>,
    ) -> Answer<Boxed<Typed>>
        ensures { IfOk result (λ found. Walks self.old self.new found (λ s. walk.staying (nodes.of_part (knowing known.entry walk.values s arguments.now) (walk.printed format.now)) s)) }
    {
        let scope = &self.scope;
        let es = arguments.as_slice();
        match self.judge.expressions(Names { known, scope }, es)? {
            None => Ok(None),
            Some(vs) => self.judge.printed(format, vs),
        }
    }

    /// `free`.
    #[tactic(auto, using(std::proofs::Common::append_assoc))]
    pub fn free(&mut self, known: Known<'_>, e: &Expr) -> Answer<Boxed<Typed>>
        ensures { IfOk result (λ found. Walks self.old self.new found (λ s. walk.staying (nodes.of_part (knowing known.entry expressions.judged s e.now) walk.freed) s)) }
    {
        let scope = &self.scope;
        match self.judge.expression(Names { known, scope }, e)? {
            None => Ok(None),
            Some(a) => self.judge.freed(a),
        }
    }

    /// A simple statement that stands alone.
    pub fn simple_statement(
        &mut self,
        known: Known<'_>,
        x: &SimpleStatement,
    ) -> Answer<Boxed<Typed>>
        ensures { IfOk result (λ found. Walks self.old self.new found (λ s. walk.staying (walk.seen_as (λ a. typed.Actions (walk.one a)) (knowing known.entry walk.simple s x.now)) s)) }
    {
        let scope = &self.scope;
        match self.judge.simple(Names { known, scope }, x)? {
            None => Ok(None),
            Some(action) => {
                let actions = one(self.judge.alloc, action)?;
                Ok(Some(Boxed::new(self.judge.alloc, Typed::Actions(actions))?))
            }
        }
    }

    /// A call of MPI.
    pub fn mpi_statement(&mut self, known: Known<'_>, c: &MpiCall) -> Answer<Boxed<Typed>>
        ensures { IfOk result (λ found. Walks self.old self.new found (λ s. walk.staying (knowing known.entry walk.mpi_call s c.now) s)) }
    {
        let scope = &self.scope;
        self.judge.mpi_call(Names { known, scope }, c)
    }
}
