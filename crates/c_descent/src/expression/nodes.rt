//! Nodes of expressions, made of finished parts.
#![tactic(auto, using(c_grammar::proofs::Views::views))]

ghost use Rattle.std.specs.Prelude.{◌≡◌, ◌≤◌, ◌<◌, suc, IfOk};
ghost use Rattle.c_tree.specs.declared.token.Class.TheVariants as class;
ghost use Rattle.c_grammar.specs.Grammar.{Arguments, Binary};
ghost use Rattle.c_grammar.specs.Meaning.{none, node, ◌+++◌};
ghost use Rattle.c_grammar.specs.Trees.{shape, primary_row, suffix_row, suffix_tree, operand, operand as operand_shape, word, each, at_grade, grade_of, access_class, name_row, type_name_row, member_name_row, expression_tree, unary_tree, link_row};
ghost use Rattle.c_descent.specs.More.{FirstOf};

use c_tree::Operator;
use c_tree::tree::{Access, Expr, Link, MemberName, Name, Primary, Suffix, TypeName};
use sqlite_items::{Boxed, Items};
use std::alloc::{AllocError, Global};

/// A choice (C99 6.5.15).
pub fn choice(
    alloc: Global,
    test: Boxed<Expr>,
    then: Boxed<Expr>,
    otherwise: Boxed<Expr>,
) -> Result<Boxed<Expr>, AllocError>
    ensures { IfOk result (λ x. shape x ≡ record { grade = 11; row = at_grade 10 (shape test) +++ expression_tree then +++ expression_tree otherwise }) }
{
    let choice = Expr::Choice {
        test,
        then,
        otherwise,
    };
    Boxed::new(alloc, choice)
}

/// An operand with the links after it, all of the grade; alone where there are none.
pub fn chain(
    alloc: Global,
    first: Boxed<Expr>,
    rest: Items<Link<Expr>>,
    grade: u8,
) -> Result<Boxed<Expr>, AllocError>
    requires small { grade < 10 }
    requires first { grade_of first ≤ grade }
    requires rest { FirstOf grade rest }
    ensures tree { IfOk result (λ x. at_grade (suc grade) (shape x) ≡ node (Binary grade) (at_grade grade (shape first) +++ each (link_row shape grade) rest) none) }
    ensures grade { IfOk result (λ x. grade_of x ≤ suc grade) }
{
    if rest.is_empty() {
        return Ok(first);
    }
    Boxed::new(alloc, Expr::Chain { first, rest })
}

/// A prefix operator with its operand (C99 6.5.3).
pub fn prefix(
    alloc: Global,
    at: u32,
    operator: Operator,
    operand: Boxed<Expr>,
) -> Result<Boxed<Expr>, AllocError>
    ensures { IfOk result (λ x. shape x ≡ operand_shape (word (class.Sign operator) at (unary_tree operand))) }
{
    let prefix = Expr::Prefix {
        at,
        operator,
        operand,
    };
    Boxed::new(alloc, prefix)
}

/// A cast (C99 6.5.4).
pub fn cast(
    alloc: Global,
    at: u32,
    name: TypeName,
    operand: Boxed<Expr>,
) -> Result<Boxed<Expr>, AllocError>
    ensures { IfOk result (λ x. shape x ≡ operand_shape (word class.LeftParen at (type_name_row name +++ unary_tree operand))) }
{
    Boxed::new(alloc, Expr::Cast { at, name, operand })
}

/// A primary expression with what is selected from it (C99 6.5.2).
pub fn postfix(
    alloc: Global,
    primary: Boxed<Primary<Expr>>,
    suffixes: Items<Suffix<Expr>>,
) -> Result<Boxed<Expr>, AllocError>
    ensures { IfOk result (λ x. shape x ≡ operand (primary_row shape primary +++ each (suffix_tree shape) suffixes)) }
{
    let postfix = Expr::Postfix {
        primary: primary.into_inner(),
        suffixes,
    };
    Boxed::new(alloc, postfix)
}

/// An expression in parentheses.
pub fn group(alloc: Global, at: u32, inner: Boxed<Expr>) -> Result<Boxed<Primary<Expr>>, AllocError>
    ensures { IfOk result (λ x. primary_row shape x ≡ word class.LeftParen at (expression_tree inner)) }
{
    Boxed::new(alloc, Primary::Group { at, inner })
}

/// A call of `malloc`.
pub fn allocation(
    alloc: Global,
    at: u32,
    size: Boxed<Expr>,
) -> Result<Boxed<Primary<Expr>>, AllocError>
    ensures { IfOk result (λ x. primary_row shape x ≡ word class.Malloc at (expression_tree size)) }
{
    Boxed::new(alloc, Primary::Malloc { at, size })
}

/// A variable.
pub fn variable(alloc: Global, name: Name) -> Result<Boxed<Primary<Expr>>, AllocError>
    ensures { IfOk result (λ x. primary_row shape x ≡ name_row name) }
{
    Boxed::new(alloc, Primary::Name(name))
}

/// A call (C99 6.5.2.2).
pub fn call(
    alloc: Global,
    name: Name,
    arguments: Items<Expr>,
) -> Result<Boxed<Primary<Expr>>, AllocError>
    ensures { IfOk result (λ x. primary_row shape x ≡ name_row name +++ node Arguments (each expression_tree arguments) none) }
{
    Boxed::new(alloc, Primary::Call { name, arguments })
}

/// What selects an element of an array (C99 6.5.2.1).
pub fn subscript(
    alloc: Global,
    at: u32,
    index: Boxed<Expr>,
) -> Result<Boxed<Suffix<Expr>>, AllocError>
    ensures { IfOk result (λ x. suffix_row shape x ≡ word class.LeftBracket at (expression_tree index)) }
{
    let subscript = Suffix::Index {
        at,
        index: index.into_inner(),
    };
    Boxed::new(alloc, subscript)
}

/// What selects a member of a structure (C99 6.5.2.3).
pub fn selection(
    alloc: Global,
    at: u32,
    access: Access,
    name: MemberName,
) -> Result<Boxed<Suffix<Expr>>, AllocError>
    ensures { IfOk result (λ x. suffix_row shape x ≡ word (access_class access) at (member_name_row name)) }
{
    Boxed::new(alloc, Suffix::Member { at, access, name })
}

/// The size of a type.
pub fn size_of(alloc: Global, at: u32, name: TypeName) -> Result<Boxed<Expr>, AllocError>
    ensures { IfOk result (λ x. shape x ≡ operand (word class.SizeOf at (type_name_row name))) }
{
    Boxed::new(alloc, Expr::SizeOf { at, name })
}
