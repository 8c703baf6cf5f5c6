//! The branches of an `if`.

ghost use Rattle.std.specs.Prelude.{IfOk};
ghost use Rattle.c_check.specs.Statement.{walked_arm, walked_arms, walked_later, walked_last, walked_branches};
ghost use Rattle.c_check.specs.Told.{Walks, within};

use crate::form::{arm_of, if_of};
use crate::judge::Answer;
use crate::parts::{gather_inner, more, one};
use crate::walker::{Around, Walker};
use c_kernel::program::{Arm as TypedArm, Stmt as Typed};
use c_tree::tree::{Arm, Expr, Stmt};
use sqlite_items::{Boxed, Items};

impl Walker {
    // A branch that has a test.
    #[cycle(statements)]
    fn arm(
        &mut self,
        around: Around<'_>,
        test: &Expr,
        body: &Stmt,
    ) -> Answer<Boxed<TypedArm<Typed>>>
        ensures { IfOk result (λ found. Walks self.old self.new found (within around.entry walked_arm around.entry.looping test.now body.now)) }
    {
        let parts = self.guarded(around, test, body)?;
        arm_of(self.judge.alloc, parts)
    }

    // All branches that have a test.
    #[cycle(statements)]
    #[tactic(auto, using(std::proofs::Common::append_assoc))]
    fn arms(
        &mut self,
        around: Around<'_>,
        test: &Expr,
        then: &Stmt,
        rest: &[Arm<Stmt>],
    ) -> Answer<Items<TypedArm<Typed>>>
        ensures { IfOk result (λ found. Walks self.old self.new found (within around.entry walked_arms around.entry.looping test.now then.now rest.now)) }
    {
        let first = self.arm(around, test, then)?;
        let later = self.later_arms(around, rest)?;
        more(self.judge.alloc, first, later)
    }

    // The branches that are `else if`s.
    #[cycle(statements)]
    #[tactic(auto, using(std::proofs::Common::append_assoc))]
    fn later_arms(
        &mut self,
        around: Around<'_>,
        rest: &[Arm<Stmt>],
    ) -> Answer<Items<TypedArm<Typed>>>
        ensures { IfOk result (λ found. Walks self.old self.new found (within around.entry walked_later around.entry.looping rest.now)) }
    {
        let mut found = Some(Items::new(self.judge.alloc));
        for x in rest {
            let one = self.arm(around, &x.test, &x.then)?;
            found = gather_inner(found, one)?;
        }
        Ok(found)
    }

    // The `else`, if there is one.
    #[cycle(statements)]
    fn last_branch(
        &mut self,
        around: Around<'_>,
        body: &Option<Boxed<Stmt>>,
    ) -> Answer<Items<Typed>>
        ensures { IfOk result (λ found. Walks self.old self.new found (within around.entry walked_last around.entry.looping body.now)) }
    {
        match body {
            None => Ok(Some(Items::new(self.judge.alloc))),
            Some(body) => match self.statement(around, body.get())? {
                None => Ok(None),
                Some(body) => Ok(Some(one(self.judge.alloc, body)?)),
            },
        }
    }

    /// An `if`.
    #[cycle(statements)]
    #[tactic(auto, using(std::proofs::Common::append_assoc))]
    pub fn branches(
        &mut self,
        around: Around<'_>,
        first: (&Expr, &Stmt),
        rest: &Items<Arm<Stmt>>,
        last: &Option<Boxed<Stmt>>,
    ) -> Answer<Boxed<Typed>>
        ensures { IfOk result (λ found. Walks self.old self.new found (within around.entry walked_branches around.entry.looping first.entry.0.now first.entry.1.now rest.now last.now)) }
    {
        let arms = self.arms(around, first.0, first.1, rest.as_slice())?;
        let last = self.last_branch(around, last)?;
        if_of(self.judge.alloc, arms, last)
    }
}
