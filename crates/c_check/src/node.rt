//! The nodes of expressions, by what their operands are found to be.

ghost use Rattle.std.specs.Prelude.{◌≡◌, [], IfOk, Some, option_map};
ghost use Rattle.std.specs.Option.{option_copied};
ghost use Rattle.c_rules.specs.Scope.{scope_of, visible};
ghost use Rattle.c_rules.specs.Judged as nodes;
ghost use Rattle.c_rules.specs.Rules as rules;
ghost use Rattle.c_check.specs.Expression as walk;
ghost use Rattle.c_check.specs.Told.{Tells, table};

use crate::judge::{Answer, Judge, Names};
use crate::parts::both;
use c_kernel::program::{Arithmetic, BinaryOperator, Comparison, Direction, UnaryOperator};
use c_kernel::{CType, IntegerType, Struct};
use c_rules::found::{Found, Run};
use c_rules::rules::{
    address, arithmetic, arrow, begin, choice, closed, comparison, constant, dereference, dot,
    index, logical, minus, negation, null, place, plus, shift, size_of, unary, variable,
};
use c_rules::scope::{Entity, Scope};
use c_rules::signature::{Signature, function};
use c_rules::types::{note_specifier, type_of};
use c_tree::tree::{Access, Constant, MemberName, Name, TypeName};
use c_tree::{Kind, Operator};
use sqlite_items::Boxed;
use std::alloc::{AllocError, Global};

// ---- what breaks no rule

pub fn is_main(name: &Name) -> bool
    ensures { result ≡ walk.is_main name.now }
{
    name.bytes.as_slice() == b"main".as_slice()
}

/// Int, or long.
pub fn width(long: bool) -> IntegerType
    ensures { result ≡ rules.width long }
{
    if long {
        IntegerType::Long
    } else {
        IntegerType::Int
    }
}

/// A constant that has a name.
pub fn constant_of(alloc: Global, at: u32, word: Constant) -> Result<Boxed<Found>, AllocError>
    ensures found { IfOk result (λ found. Some found ≡ (rules.constant_word at word).found) }
    ensures breaches { (rules.constant_word at word).breaches ≡ [] }
{
    match word {
        Constant::Null => null(alloc, at),
        Constant::AnySource | Constant::AnyTag => constant(alloc, at, -1, IntegerType::Int),
        Constant::ProcNull => constant(alloc, at, -2, IntegerType::Int),
    }
}

/// An expression in parentheses.
pub fn group(alloc: Global, at: u32, a: Option<Boxed<Found>>) -> Answer<Boxed<Found>>
    ensures { IfOk result (λ found. found ≡ (nodes.given a (rules.group at)).found) }
{
    match a {
        None => Ok(None),
        Some(a) => {
            let Found { at: _, form } = a.into_inner();
            Ok(Some(Boxed::new(alloc, Found { at, form })?))
        }
    }
}

/// A chain begins.
pub fn begun(alloc: Global, a: Option<Boxed<Found>>) -> Answer<Boxed<Run>>
    ensures { IfOk result (λ run. run ≡ option_map rules.begin a) }
{
    match a {
        None => Ok(None),
        Some(a) => Ok(Some(begin(alloc, a)?)),
    }
}

/// A chain ends.
pub fn ended(alloc: Global, a: Option<Boxed<Run>>) -> Answer<Boxed<Found>>
    ensures { IfOk result (λ found. found ≡ walk.ended a) }
{
    match a {
        None => Ok(None),
        Some(a) => Ok(Some(closed(alloc, a)?)),
    }
}

impl Judge {
    // ---- names

    pub fn name(&mut self, scope: &Scope, name: &Name) -> Answer<Boxed<Found>>
        ensures { IfOk result (λ found. Tells self.old self.new found (rules.name name.now.at (visible (scope_of scope.now) name.now.bytes))) }
    {
        match scope.find(name.bytes.as_slice()) {
            Some(Entity::Variable(v)) => {
                let whole = Boxed::new(self.alloc, variable(self.alloc, v.number))?;
                let kind = v.kind.copy(self.alloc)?;
                Ok(Some(place(self.alloc, name.at, kind, whole)?))
            }
            Some(Entity::Parameter(_)) | None => self.refuse(Kind::UnknownName, name.at),
        }
    }

    /// The function of a name that no variable hides.
    pub fn callee<'f>(&mut self, names: Names<'f>, name: &Name) -> Answer<&'f Signature>
        ensures { IfOk result (λ found. Tells self.old self.new (option_copied found) (walk.callee (table names.entry.known) (scope_of names.entry.scope.now) name.now)) }
    {
        match names.scope.find(name.bytes.as_slice()) {
            Some(_) => {
                self.rule(true, Kind::UnknownName, name.at)?;
                Ok(None)
            }
            None => match function(names.known.functions, name.bytes.as_slice()) {
                Some(f) => Ok(Some(f)),
                None => {
                    self.rule(true, Kind::UnknownName, name.at)?;
                    Ok(None)
                }
            },
        }
    }

    /// The type that a cast or sizeof names.
    pub fn named_type(&mut self, structs: &[Struct], name: &TypeName) -> Answer<CType>
        ensures { IfOk result (λ found. Tells self.old self.new found (walk.named_type structs.now name.now)) }
    {
        let mark = self.mark();
        note_specifier(&mut self.breaches, structs, None, &name.specifier)?;
        if self.broke(mark) {
            return Ok(None);
        }
        Ok(Some(type_of(structs, None, &name.specifier, name.stars)))
    }

    // ---- nodes

    /// `sizeof`.
    #[tactic(auto, using(std::proofs::Common::append_assoc))]
    pub fn sized(&mut self, structs: &[Struct], at: u32, name: &TypeName) -> Answer<Boxed<Found>>
        ensures { IfOk result (λ found. Tells self.old self.new found (nodes.of_part (walk.named_type structs.now name.now) (rules.size_of structs.now at))) }
    {
        match self.named_type(structs, name)? {
            None => Ok(None),
            Some(c_type) => size_of(self.alloc, &mut self.breaches, structs, at, c_type),
        }
    }

    /// An element.
    pub fn element(
        &mut self,
        structs: &[Struct],
        a: Option<Boxed<Found>>,
        i: Option<Boxed<Found>>,
    ) -> Answer<Boxed<Found>>
        ensures { IfOk result (λ found. Tells self.old self.new found (nodes.given (nodes.both a i) (λ p. rules.index structs.now p.0 p.1))) }
    {
        match both(a, i) {
            None => Ok(None),
            Some((a, i)) => index(self.alloc, &mut self.breaches, structs, a, i),
        }
    }

    /// A member.
    pub fn member(
        &mut self,
        structs: &[Struct],
        a: Option<Boxed<Found>>,
        access: Access,
        name: &MemberName,
    ) -> Answer<Boxed<Found>>
        ensures { IfOk result (λ found. Tells self.old self.new found (nodes.given a (λ x. rules.member structs.now access x name.now))) }
    {
        match a {
            None => Ok(None),
            Some(a) => match access {
                Access::Dot => dot(self.alloc, &mut self.breaches, structs, a, name),
                Access::Arrow => arrow(self.alloc, &mut self.breaches, structs, a, name),
            },
        }
    }

    /// An operator before its operand.
    pub fn prefix(
        &mut self,
        structs: &[Struct],
        at: u32,
        operator: Operator,
        a: Option<Boxed<Found>>,
    ) -> Answer<Boxed<Found>>
        ensures { IfOk result (λ found. Tells self.old self.new found (rules.prefix structs.now at operator a)) }
    {
        match operator {
            Operator::Plus => self.signed(UnaryOperator::Plus, at, a),
            Operator::Minus => self.signed(UnaryOperator::Minus, at, a),
            Operator::Tilde => self.signed(UnaryOperator::Complement, at, a),
            Operator::Not => self.negated(at, a),
            Operator::Star => self.followed(structs, at, a),
            Operator::And => self.pointed(at, a),
            _ => self.refuse(Kind::NotYet, 0),
        }
    }

    fn signed(
        &mut self,
        operator: UnaryOperator,
        at: u32,
        a: Option<Boxed<Found>>,
    ) -> Answer<Boxed<Found>>
        ensures { IfOk result (λ found. Tells self.old self.new found (nodes.given a (rules.unary operator at))) }
    {
        match a {
            None => Ok(None),
            Some(a) => unary(self.alloc, &mut self.breaches, operator, at, a),
        }
    }

    fn negated(&mut self, at: u32, a: Option<Boxed<Found>>) -> Answer<Boxed<Found>>
        ensures { IfOk result (λ found. Tells self.old self.new found (nodes.given a (rules.negation at))) }
    {
        match a {
            None => Ok(None),
            Some(a) => negation(self.alloc, &mut self.breaches, at, a),
        }
    }

    fn followed(
        &mut self,
        structs: &[Struct],
        at: u32,
        a: Option<Boxed<Found>>,
    ) -> Answer<Boxed<Found>>
        ensures { IfOk result (λ found. Tells self.old self.new found (nodes.given a (rules.dereference structs.now at))) }
    {
        match a {
            None => Ok(None),
            Some(a) => dereference(self.alloc, &mut self.breaches, structs, at, a),
        }
    }

    fn pointed(&mut self, at: u32, a: Option<Boxed<Found>>) -> Answer<Boxed<Found>>
        ensures { IfOk result (λ found. Tells self.old self.new found (nodes.given a (rules.address at))) }
    {
        match a {
            None => Ok(None),
            Some(a) => address(self.alloc, &mut self.breaches, at, a),
        }
    }

    /// A choice.
    pub fn choice_of(
        &mut self,
        c: Option<Boxed<Found>>,
        a: Option<Boxed<Found>>,
        b: Option<Boxed<Found>>,
    ) -> Answer<Boxed<Found>>
        ensures { IfOk result (λ found. Tells self.old self.new found (walk.choice_of c a b)) }
    {
        match both(c, both(a, b)) {
            None => Ok(None),
            Some((c, (a, b))) => choice(self.alloc, &mut self.breaches, c, a, b),
        }
    }

    // ---- chains

    /// A chain goes on by one operand.
    pub fn next(
        &mut self,
        structs: &[Struct],
        operator: Operator,
        a: Option<Boxed<Run>>,
        b: Option<Boxed<Found>>,
    ) -> Answer<Boxed<Run>>
        ensures { IfOk result (λ run. Tells self.old self.new run (walk.next structs.now operator a b)) }
    {
        match both(a, b) {
            None => Ok(None),
            Some((a, b)) => self.link(structs, operator, a, b),
        }
    }

    /// A chain with one operator and operand more.
    pub fn link(
        &mut self,
        structs: &[Struct],
        operator: Operator,
        a: Boxed<Run>,
        b: Boxed<Found>,
    ) -> Answer<Boxed<Run>>
        ensures { IfOk result (λ run. Tells self.old self.new run (rules.link structs.now operator a b)) }
    {
        match operator {
            Operator::Star => self.computed(Arithmetic::Multiply, a, b),
            Operator::Slash => self.computed(Arithmetic::Divide, a, b),
            Operator::Percent => self.computed(Arithmetic::Remainder, a, b),
            Operator::Plus => plus(self.alloc, &mut self.breaches, structs, a, b),
            Operator::Minus => minus(self.alloc, &mut self.breaches, structs, a, b),
            Operator::And => self.computed(Arithmetic::And, a, b),
            Operator::Caret => self.computed(Arithmetic::ExclusiveOr, a, b),
            Operator::Or => self.computed(Arithmetic::InclusiveOr, a, b),
            Operator::ShiftLeft => shift(self.alloc, &mut self.breaches, Direction::Left, a, b),
            Operator::ShiftRight => shift(self.alloc, &mut self.breaches, Direction::Right, a, b),
            Operator::Less => self.compared(Comparison::Less, a, b),
            Operator::Greater => self.compared(Comparison::Greater, a, b),
            Operator::LessEqual => self.compared(Comparison::LessEqual, a, b),
            Operator::GreaterEqual => self.compared(Comparison::GreaterEqual, a, b),
            Operator::EqualEqual => self.compared(Comparison::Equal, a, b),
            Operator::NotEqual => self.compared(Comparison::NotEqual, a, b),
            Operator::AndAnd => logical(self.alloc, &mut self.breaches, BinaryOperator::And, a, b),
            Operator::OrOr => logical(self.alloc, &mut self.breaches, BinaryOperator::Or, a, b),
            Operator::Not | Operator::Tilde => self.refuse(Kind::NotYet, 0),
        }
    }

    fn computed(
        &mut self,
        operator: Arithmetic,
        a: Boxed<Run>,
        b: Boxed<Found>,
    ) -> Answer<Boxed<Run>>
        ensures { IfOk result (λ run. Tells self.old self.new run (rules.arithmetic operator a b)) }
    {
        arithmetic(self.alloc, &mut self.breaches, operator, a, b)
    }

    fn compared(
        &mut self,
        operator: Comparison,
        a: Boxed<Run>,
        b: Boxed<Found>,
    ) -> Answer<Boxed<Run>>
        ensures { IfOk result (λ run. Tells self.old self.new run (rules.comparison operator a b)) }
    {
        comparison(self.alloc, &mut self.breaches, operator, a, b)
    }
}
