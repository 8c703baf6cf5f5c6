//! Expressions.

ghost use Rattle.std.specs.Prelude.{IfOk};
ghost use Rattle.c_rules.specs.Judged as nodes;
ghost use Rattle.c_check.specs.Expression.{judged};
ghost use Rattle.c_check.specs.Expression as walk;
ghost use Rattle.c_check.specs.Told.{Tells, among};

use crate::judge::{Answer, Judge, Names};
use crate::node::{begun, constant_of, ended, group, is_main, width};
use crate::parts::{both, gather};
use c_kernel::IntegerType;
use c_rules::found::{Found, Invocation, Run};
use c_rules::rules::{call, cast, constant, literal, misplaced_call};
use c_rules::signature::Callee;
use c_tree::Kind;
use c_tree::tree::{Expr, Link, Name, Primary, Suffix, TypeName};
use sqlite_items::{Boxed, Items};

impl Judge {
    /// What an expression is found to be, or nothing where it breaks a rule.
    #[cycle(walk)]
    #[tactic(auto, using(std::proofs::Common::append_assoc))]
    pub fn expression(&mut self, names: Names<'_>, e: &Expr) -> Answer<Boxed<Found>>
        ensures { IfOk result (λ found. Tells self.old self.new found (among names.entry judged e.now)) }
    {
        match e {
            Expr::Postfix { primary, suffixes } => {
                let a = self.primary(names, primary)?;
                self.suffixed(names, a, suffixes.as_slice())
            }
            Expr::SizeOf { at, name } => self.sized(names.known.structs, *at, name),
            Expr::Cast { at, name, operand } => self.whole_cast(names, *at, name, operand.get()),
            Expr::Prefix {
                at,
                operator,
                operand,
            } => {
                let a = self.expression(names, operand.get())?;
                self.prefix(names.known.structs, *at, *operator, a)
            }
            Expr::Chain { first, rest } => self.whole_chain(names, first.get(), rest),
            Expr::Choice {
                test,
                then,
                otherwise,
            } => {
                let c = self.expression(names, test.get())?;
                let a = self.expression(names, then.get())?;
                let b = self.expression(names, otherwise.get())?;
                self.choice_of(c, a, b)
            }
        }
    }

    // A primary expression.
    #[cycle(walk)]
    fn primary(&mut self, names: Names<'_>, p: &Primary<Expr>) -> Answer<Boxed<Found>>
        ensures { IfOk result (λ found. Tells self.old self.new found (among names.entry walk.judged_primary p.now)) }
    {
        match p {
            Primary::Number(n) => Ok(Some(literal(self.alloc, n.at, n.value, width(n.long))?)),
            Primary::Character { at, value } => {
                Ok(Some(constant(self.alloc, *at, value.cast_signed(), IntegerType::Int)?))
            }
            Primary::Constant { at, constant } => {
                Ok(Some(constant_of(self.alloc, *at, *constant)?))
            }
            Primary::Name(n) => self.name(names.scope, n),
            Primary::Call { name, arguments } => self.misplaced(names, name, arguments),
            Primary::Malloc { at, size } => self.no_part(names, *at, size.get()),
            Primary::Group { at, inner } => {
                let a = self.expression(names, inner.get())?;
                group(self.alloc, *at, a)
            }
        }
    }

    // What is selected from an operand, step by step.
    #[cycle(walk)]
    fn suffixed(
        &mut self,
        names: Names<'_>,
        a: Option<Boxed<Found>>,
        suffixes: &[Suffix<Expr>],
    ) -> Answer<Boxed<Found>>
        ensures { IfOk result (λ found. Tells self.old self.new found (among names.entry walk.judged_suffixes a suffixes.now)) }
    {
        let mut found = a;
        for x in suffixes {
            found = self.suffix(names, found, x)?;
        }
        Ok(found)
    }

    // What is selected from an operand.
    #[cycle(walk)]
    #[tactic(auto, using(std::proofs::Common::append_assoc))]
    fn suffix(
        &mut self,
        names: Names<'_>,
        a: Option<Boxed<Found>>,
        x: &Suffix<Expr>,
    ) -> Answer<Boxed<Found>>
        ensures { IfOk result (λ found. Tells self.old self.new found (among names.entry walk.judged_suffix a x.now)) }
    {
        match x {
            Suffix::Index { at: _, index: i } => {
                let i = self.expression(names, i)?;
                self.element(names.known.structs, a, i)
            }
            Suffix::Member {
                at: _,
                access,
                name,
            } => self.member(names.known.structs, a, *access, name),
        }
    }

    // A `malloc` that is a part.
    #[cycle(walk)]
    #[tactic(auto, using(std::proofs::Common::append_assoc))]
    fn no_part(&mut self, names: Names<'_>, at: u32, size: &Expr) -> Answer<Boxed<Found>>
        ensures { IfOk result (λ found. Tells self.old self.new found (among names.entry walk.no_part at (among names.entry judged size.now))) }
    {
        match self.expression(names, size)? {
            None => Ok(None),
            Some(_) => self.refuse(Kind::MallocPlace, at),
        }
    }

    // A cast.
    #[cycle(walk)]
    #[tactic(auto, using(std::proofs::Common::append_assoc))]
    fn whole_cast(
        &mut self,
        names: Names<'_>,
        at: u32,
        name: &TypeName,
        operand: &Expr,
    ) -> Answer<Boxed<Found>>
        ensures { IfOk result (λ found. Tells self.old self.new found (walk.whole_cast at (walk.named_type names.entry.known.structs.now name.now) (among names.entry judged operand.now))) }
    {
        let c_type = self.named_type(names.known.structs, name)?;
        let a = self.expression(names, operand)?;
        match both(c_type, a) {
            None => Ok(None),
            Some((c_type, a)) => cast(self.alloc, &mut self.breaches, at, c_type, a),
        }
    }

    // Operators with their operands.
    #[cycle(walk)]
    #[tactic(auto, using(std::proofs::Common::append_assoc))]
    fn whole_chain(
        &mut self,
        names: Names<'_>,
        first: &Expr,
        rest: &Items<Link<Expr>>,
    ) -> Answer<Boxed<Found>>
        ensures { IfOk result (λ found. Tells self.old self.new found (walk.whole_chain names.entry.known.structs.now (among names.entry judged first.now) (among names.entry walk.judged_links rest.now))) }
    {
        let a = self.expression(names, first)?;
        let a = begun(self.alloc, a)?;
        let run = self.chain(names, a, rest)?;
        ended(self.alloc, run)
    }

    // A chain goes on from the left.
    #[cycle(walk)]
    #[tactic(auto, using(std::proofs::Common::append_assoc))]
    fn chain(
        &mut self,
        names: Names<'_>,
        first: Option<Boxed<Run>>,
        links: &Items<Link<Expr>>,
    ) -> Answer<Boxed<Run>>
        ensures { IfOk result (λ run. Tells self.old self.new run (walk.chain names.entry.known.structs.now first (among names.entry walk.judged_links links.now))) }
    {
        let mut run = first;
        for x in links.as_slice() {
            let operand = self.expression(names, &x.operand)?;
            run = self.next(names.known.structs, x.operator, run, operand)?;
        }
        Ok(run)
    }

    /// What several expressions are found to be.
    #[cycle(walk)]
    #[tactic(auto, using(std::proofs::Common::append_assoc))]
    pub fn expressions(&mut self, names: Names<'_>, es: &[Expr]) -> Answer<Items<Boxed<Found>>>
        ensures { IfOk result (λ found. Tells self.old self.new found (nodes.together (among names.entry walk.judged_all es.now))) }
    {
        let mut found = Some(Items::new(self.alloc));
        for e in es {
            let one = self.expression(names, e)?;
            found = gather(found, one)?;
        }
        Ok(found)
    }

    // A call that is a part.
    #[cycle(walk)]
    #[tactic(auto, using(std::proofs::Common::append_assoc))]
    fn misplaced(
        &mut self,
        names: Names<'_>,
        name: &Name,
        arguments: &Items<Expr>,
    ) -> Answer<Boxed<Found>>
        ensures { IfOk result (λ found. Tells self.old self.new found (among names.entry walk.misplaced (among names.entry walk.call_of name.now.at name.now arguments.now))) }
    {
        let f = self.callee(names, name)?;
        let values = self.expressions(names, arguments.as_slice())?;
        match f {
            None => Ok(None),
            Some(f) => match values {
                None => Ok(None),
                Some(values) => {
                    let callee = Callee {
                        at: name.at,
                        main: is_main(name),
                        signature: f,
                    };
                    misplaced_call(&mut self.breaches, callee, values.as_slice())
                }
            },
        }
    }

    /// What a call is found to be.
    #[tactic(auto, using(std::proofs::Common::append_assoc))]
    pub fn invoked(
        &mut self,
        names: Names<'_>,
        at: u32,
        name: &Name,
        arguments: &Items<Expr>,
    ) -> Answer<Invocation>
        ensures { IfOk result (λ found. Tells self.old self.new found (among names.entry walk.invoked (among names.entry walk.call_of at name.now arguments.now))) }
    {
        let f = self.callee(names, name)?;
        let values = self.expressions(names, arguments.as_slice())?;
        match f {
            None => Ok(None),
            Some(f) => match values {
                None => Ok(None),
                Some(values) => {
                    let callee = Callee {
                        at: name.at,
                        main: is_main(name),
                        signature: f,
                    };
                    call(self.alloc, &mut self.breaches, at, callee, values)
                }
            },
        }
    }
}
