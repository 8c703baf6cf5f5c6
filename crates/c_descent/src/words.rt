//! Words that stand in the tree.
#![tactic(auto, using(c_grammar::proofs::Views::views))]

ghost use Rattle.std.specs.Prelude.{◌≡◌, ◌≤◌, ◌<◌, ◌+◌, ◌∷◌, [], IfOk, length};
ghost use Rattle.c_tree.specs.declared.token.Class.TheVariants as class;
ghost use Rattle.c_tree.specs.declared.token.Value.TheVariants as value;
ghost use Rattle.c_grammar.specs.Grammar as grammar;
ghost use Rattle.c_grammar.specs.Grammar.{Ref, Word, All, Many, ◌⊳◌};
ghost use Rattle.c_grammar.specs.Meaning.{leaf, none, node, limit};
ghost use Rattle.c_grammar.specs.Gives.{Finds, Gives};
ghost use Rattle.c_grammar.specs.Trees.{name_row, number_row, member_name_row, primary_row, shape, constant_class};
ghost use Rattle.c_grammar.specs.Readers.{integer_class, integer_value, literal_class, literal_value, member_class, member_value};

use c_grammar::reading::skip;
use c_grammar::{Integer, Literal, MemberName as FoundName, ReadError, Unread, reading};
use c_tree::tree::{Constant, Expr, MemberName, Name, Number, Primary, Text};
use c_tree::{Class, Token};
use sqlite_items::Boxed;
use std::alloc::Global;

/// What was read, where the next token is of the class, which is passed.
#[tactic(auto)]
pub fn followed_by<T: Drop>(
    read: T,
    tokens: &[Token],
    class: Class,
    level: u8,
) -> Result<(T, &[Token]), Unread>
    ensures same { IfOk result (λ x. x.0 ≡ read) }
    ensures reads { Finds (λ x. none) (λ x. x.1.now) level (grammar.word class) tokens.now result }
    ensures shorter { IfOk result (λ x. length x.1.now < length tokens.now) }
{
    match skip(tokens, class, level) {
        Ok(rest) => Ok((read, rest)),
        Err(error) => Err(error),
    }
}

/// A name of the program.
pub fn name(alloc: Global, tokens: &[Token], level: u8) -> Result<(Name, &[Token]), ReadError>
    ensures reads { Gives (λ x. name_row x.0) (λ x. x.1.now) level (Word All (class.Name ∷ [])) tokens.now result }
    ensures level { IfOk result (λ x. level ≤ limit) }
    ensures shorter { IfOk result (λ x. length x.1.now < length tokens.now) }
{
    match reading::name(alloc, tokens, level) {
        Ok((at, bytes, rest)) => Ok((Name { at, bytes }, rest)),
        Err(error) => Err(error),
    }
}

/// A string literal.
pub fn text(alloc: Global, tokens: &[Token], level: u8) -> Result<(Text, &[Token]), ReadError>
    ensures reads { Gives (λ x. leaf class.Text (value.Bytes x.0.bytes) x.0.at none) (λ x. x.1.now) level (Word All (class.Text ∷ [])) tokens.now result }
    ensures level { IfOk result (λ x. level ≤ limit) }
    ensures shorter { IfOk result (λ x. length x.1.now < length tokens.now) }
{
    match reading::string(alloc, tokens, level) {
        Ok((at, bytes, rest)) => Ok((Text { at, bytes }, rest)),
        Err(error) => Err(error),
    }
}

/// A number.
pub fn number(tokens: &[Token], level: u8) -> Result<(Number, &[Token]), Unread>
    ensures reads { Finds (λ x. number_row x.0) (λ x. x.1.now) level (Word All grammar.integers) tokens.now result }
    ensures level { IfOk result (λ x. level ≤ limit) }
    ensures shorter { IfOk result (λ x. length x.1.now < length tokens.now) }
{
    match reading::integer(tokens, level) {
        Ok((at, integer, rest)) => Ok((number_at(at, integer), rest)),
        Err(error) => Err(error),
    }
}

/// A constant: a number, a character or a word.
pub fn literal(
    alloc: Global,
    tokens: &[Token],
    level: u8,
) -> Result<(Boxed<Primary<Expr>>, &[Token]), ReadError>
    ensures reads { Gives (λ x. primary_row shape x.0) (λ x. x.1.now) level (Word All grammar.literals) tokens.now result }
    ensures level { IfOk result (λ x. level ≤ limit) }
    ensures shorter { IfOk result (λ x. length x.1.now < length tokens.now) }
{
    let (at, literal, rest) = reading::literal(tokens, level)?;
    let constant = Boxed::new(alloc, literal_at(at, literal))?;
    Ok((constant, rest))
}

/// The name of a member.
pub fn member_name(
    alloc: Global,
    tokens: &[Token],
    level: u8,
) -> Result<(MemberName, &[Token]), ReadError>
    ensures reads { Gives (λ x. member_name_row x.0) (λ x. x.1.now) level (Word All grammar.member_names) tokens.now result }
    ensures level { IfOk result (λ x. level ≤ limit) }
    ensures shorter { IfOk result (λ x. length x.1.now < length tokens.now) }
{
    match reading::member_name(alloc, tokens, level) {
        Ok((at, name, rest)) => Ok((member_at(at, name), rest)),
        Err(error) => Err(error),
    }
}

/// The node of a number.
fn number_at(at: u32, integer: Integer) -> Number
    ensures { number_row result ≡ leaf (integer_class integer) (integer_value integer) at none }
{
    Number {
        at,
        value: integer.value,
        long: integer.long,
    }
}

/// The node of a constant.
fn literal_at(at: u32, literal: Literal) -> Primary<Expr>
    ensures { primary_row shape result ≡ leaf (literal_class literal) (literal_value literal) at none }
{
    match literal {
        Literal::Integer(integer) => Primary::Number(number_at(at, integer)),
        Literal::Character(value) => Primary::Character { at, value },
        Literal::Null => constant_at(at, Constant::Null),
        Literal::AnySource => constant_at(at, Constant::AnySource),
        Literal::AnyTag => constant_at(at, Constant::AnyTag),
        Literal::ProcNull => constant_at(at, Constant::ProcNull),
    }
}

/// The node of a constant that is a word.
fn constant_at(at: u32, constant: Constant) -> Primary<Expr>
    ensures { primary_row shape result ≡ leaf (constant_class constant) value.Nothing at none }
{
    Primary::Constant { at, constant }
}

/// The node of a member's name.
fn member_at(at: u32, name: FoundName) -> MemberName
    ensures { member_name_row result ≡ leaf (member_class name) (member_value name) at none }
{
    match name {
        FoundName::Name(bytes) => MemberName::Name(Name { at, bytes }),
        FoundName::Source => MemberName::Source(at),
        FoundName::Tag => MemberName::Tag(at),
    }
}
