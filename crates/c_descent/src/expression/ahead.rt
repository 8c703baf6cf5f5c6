//! Words of expressions.

ghost use Rattle.std.specs.Prelude.{◌≡◌, ◌<◌, ◌≤◌, ◌∷◌, [], IfOk, length};
ghost use Rattle.c_tree.specs.declared.token.Class.TheVariants as class;
ghost use Rattle.c_tree.specs.declared.token.Value.TheVariants as value;
ghost use Rattle.c_grammar.specs.Grammar.{Kind, Place, Suffix, Ref, Word, literals, operators, prefixes};
ghost use Rattle.c_grammar.specs.Meaning.{leaf, none, next_in, starts, limit};
ghost use Rattle.c_grammar.specs.Gives.{Finds};
ghost use Rattle.c_grammar.specs.Readers.{IsNext, grade as grade_of_operator};
ghost use Rattle.c_grammar.specs.Trees.{access_class};

use c_grammar::Unread;
use c_grammar::ahead::{at_operator, at_prefix, next_is};
use c_grammar::reading::pick;
use c_tree::tree::Access;
use c_tree::{Class, Operator, Token};

/// Whether the next token is a constant.
pub fn at_literal(tokens: &[Token]) -> bool
    ensures { result ≡ next_in literals tokens.now }
{
    match tokens {
        [] => false,
        [token, ..] => match token.class {
            Class::Number
            | Class::LongNumber
            | Class::HugeNumber
            | Class::Character
            | Class::Null
            | Class::AnySource
            | Class::AnyTag
            | Class::ProcNull => true,
            _ => false,
        },
    }
}

/// Whether the next token selects an element or a member.
pub fn at_suffix(tokens: &[Token]) -> bool
    ensures { result ≡ starts (Ref Suffix) tokens.now }
{
    next_is(tokens, Class::LeftBracket)
        || next_is(tokens, Class::Dot)
        || next_is(tokens, Class::Arrow)
}

/// The access to a member that the next token is.
fn at_access(tokens: &[Token]) -> Option<Access>
    ensures { IsNext access_class (class.Dot ∷ class.Arrow ∷ []) tokens.now result }
{
    match tokens {
        [] => None,
        [token, ..] => match token.class {
            Class::Dot => Some(Access::Dot),
            Class::Arrow => Some(Access::Arrow),
            _ => None,
        },
    }
}

/// Whether the next token is an operator of the grade.
pub fn is_operator(tokens: &[Token], grade: u8) -> bool
    requires { grade < 10 }
    ensures { result ≡ next_in (operators grade) tokens.now }
{
    match at_operator(tokens, grade) {
        None => false,
        Some(_) => true,
    }
}

/// An operator of the grade.
pub fn operator(tokens: &[Token], level: u8, grade: u8) -> Result<(Operator, &[Token]), Unread>
    requires { grade < 10 }
    ensures reads { Finds (λ x. leaf (class.Sign x.0) value.Nothing 0 none) (λ x. x.1.now) level (Word Kind (operators grade)) tokens.now result }
    ensures grade { IfOk result (λ x. grade_of_operator x.0 ≡ grade) }
    ensures level { IfOk result (λ x. level ≤ limit) }
    ensures shorter { IfOk result (λ x. length x.1.now < length tokens.now) }
{
    match pick(tokens, at_operator(tokens, grade), level) {
        Ok((_, operator, rest)) => Ok((operator, rest)),
        Err(error) => Err(error),
    }
}

/// An access to a member, with its place.
pub fn access(tokens: &[Token], level: u8) -> Result<((u32, Access), &[Token]), Unread>
    ensures reads { Finds (λ x. leaf (access_class x.0.1) value.Nothing x.0.0 none) (λ x. x.1.now) level (Word Place (class.Dot ∷ class.Arrow ∷ [])) tokens.now result }
    ensures level { IfOk result (λ x. level ≤ limit) }
    ensures shorter { IfOk result (λ x. length x.1.now < length tokens.now) }
{
    match pick(tokens, at_access(tokens), level) {
        Ok((at, access, rest)) => Ok(((at, access), rest)),
        Err(error) => Err(error),
    }
}

/// A prefix operator, with its place.
pub fn prefix_operator(tokens: &[Token], level: u8) -> Result<((u32, Operator), &[Token]), Unread>
    ensures reads { Finds (λ x. leaf (class.Sign x.0.1) value.Nothing x.0.0 none) (λ x. x.1.now) level (Word Place prefixes) tokens.now result }
    ensures level { IfOk result (λ x. level ≤ limit) }
    ensures shorter { IfOk result (λ x. length x.1.now < length tokens.now) }
{
    match pick(tokens, at_prefix(tokens), level) {
        Ok((at, operator, rest)) => Ok(((at, operator), rest)),
        Err(error) => Err(error),
    }
}
