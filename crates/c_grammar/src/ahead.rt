//! What the next token is.

ghost use Rattle.std.specs.Prelude.{◌≡◌, ◌<◌, ◌∷◌, []};
ghost use Rattle.c_tree.specs.Codes.{code};
ghost use Rattle.c_grammar.specs.Grammar.{prefixes, datatypes, reductions, headers, assignments, Ref, Item, TypeSpecifier, BlockItem, SimpleStatement, MpiCall, Unary, operators};
ghost use Rattle.c_grammar.specs.Meaning.{has, next_in, starts};
ghost use Rattle.c_grammar.specs.Readers.{IsNext, assign_class, grade};
ghost use Rattle.c_tree.specs.declared.token.Class.TheVariants;

use c_tree::{Class, Datatype, Header, Operator, Reduction, Token};

/// Whether the next token is of the class.
pub fn next_is(tokens: &[Token], class: Class) -> bool
    ensures { result ≡ next_in (class ∷ []) tokens.now }
{
    match tokens {
        [] => false,
        [token, ..] => token.class.code() == class.code(),
    }
}

/// Whether the next token can begin an include, a struct or a function.
pub fn at_item(tokens: &[Token]) -> bool
    ensures { result ≡ starts (Ref Item) tokens.now }
{
    match tokens {
        [] => false,
        [token, ..] => match token.class {
            Class::Include(_) => true,
            _ => at_type(tokens),
        },
    }
}

/// Whether the next token can begin a type.
pub fn at_type(tokens: &[Token]) -> bool
    ensures { result ≡ starts (Ref TypeSpecifier) tokens.now }
{
    match tokens {
        [] => false,
        [token, ..] => match token.class {
            Class::Struct
            | Class::Char
            | Class::Int
            | Class::Long
            | Class::Void
            | Class::StatusType => true,
            _ => false,
        },
    }
}

/// Whether the next token can begin a declaration or a statement.
pub fn at_block_item(tokens: &[Token]) -> bool
    ensures { result ≡ starts (Ref BlockItem) tokens.now }
{
    match tokens {
        [] => false,
        [token, ..] => match token.class {
            Class::If
            | Class::While
            | Class::Do
            | Class::For
            | Class::Return
            | Class::Break
            | Class::Continue
            | Class::Free
            | Class::Printf
            | Class::Checkpoint
            | Class::PotentialCheckpoint
            | Class::LeftBrace
            | Class::Semicolon => true,
            _ => at_type(tokens) || at_simple(tokens) || at_mpi_call(tokens),
        },
    }
}

/// Whether the next token can begin an assignment or another expression that stands as a statement.
pub fn at_simple(tokens: &[Token]) -> bool
    ensures { result ≡ starts (Ref SimpleStatement) tokens.now }
{
    at_operand(tokens) || next_is(tokens, Class::PlusPlus) || next_is(tokens, Class::MinusMinus)
}

/// Whether the next token can begin a call of MPI.
pub fn at_mpi_call(tokens: &[Token]) -> bool
    ensures { result ≡ starts (Ref MpiCall) tokens.now }
{
    match tokens {
        [] => false,
        [token, ..] => match token.class {
            Class::Mpi(_) => true,
            _ => false,
        },
    }
}

/// Whether the next token can begin an operand, and so an expression.
pub fn at_operand(tokens: &[Token]) -> bool
    ensures { result ≡ starts (Ref Unary) tokens.now }
{
    match tokens {
        [] => false,
        [token, ..] => match token.class {
            Class::Name
            | Class::Number
            | Class::LongNumber
            | Class::HugeNumber
            | Class::Character
            | Class::SizeOf
            | Class::Null
            | Class::Malloc
            | Class::AnySource
            | Class::AnyTag
            | Class::ProcNull
            | Class::LeftParen => true,
            Class::Sign(operator) => is_prefix(operator),
            _ => false,
        },
    }
}

/// Whether the operator can stand before its only operand (C99 6.5.3).
pub fn is_prefix(operator: Operator) -> bool
    ensures { result ≡ has prefixes (code (TheVariants.Sign operator)) }
{
    match operator {
        Operator::Star
        | Operator::Plus
        | Operator::Minus
        | Operator::And
        | Operator::Not
        | Operator::Tilde => true,
        _ => false,
    }
}

/// The prefix operator that the next token is.
pub fn at_prefix(tokens: &[Token]) -> Option<Operator>
    ensures { IsNext (λ o. TheVariants.Sign o) prefixes tokens.now result }
{
    match tokens {
        [] => None,
        [token, ..] => match token.class {
            Class::Sign(operator) => {
                if is_prefix(operator) {
                    Some(operator)
                } else {
                    None
                }
            }
            _ => None,
        },
    }
}

/// The operator of the grade that the next token is.
pub fn at_operator(tokens: &[Token], grade: u8) -> Option<Operator>
    requires { grade < 10 }
    ensures { IsNext (λ o. TheVariants.Sign o) (operators grade) tokens.now result }
{
    match tokens {
        [] => None,
        [token, ..] => match token.class {
            Class::Sign(operator) => {
                if grade_of(operator) == grade {
                    Some(operator)
                } else {
                    None
                }
            }
            _ => None,
        },
    }
}

/// The grade of the operator: 0 binds most (C99 6.5.5), 9 least (6.5.14), and 10 stands between no operands.
pub fn grade_of(operator: Operator) -> u8
    ensures { result ≡ grade operator }
{
    match operator {
        Operator::Star | Operator::Slash | Operator::Percent => 0,
        Operator::Plus | Operator::Minus => 1,
        Operator::ShiftLeft | Operator::ShiftRight => 2,
        Operator::Less | Operator::Greater | Operator::LessEqual | Operator::GreaterEqual => 3,
        Operator::EqualEqual | Operator::NotEqual => 4,
        Operator::And => 5,
        Operator::Caret => 6,
        Operator::Or => 7,
        Operator::AndAnd => 8,
        Operator::OrOr => 9,
        Operator::Not | Operator::Tilde => 10,
    }
}

/// The assignment that the next token is: its operator, or none for `=` (C99 6.5.16).
pub fn at_assignment(tokens: &[Token]) -> Option<Option<Operator>>
    ensures { IsNext assign_class assignments tokens.now result }
{
    match tokens {
        [] => None,
        [token, ..] => match token.class {
            Class::Equal => Some(None),
            Class::Compound(operator) => match operator {
                Operator::Plus
                | Operator::Minus
                | Operator::Star
                | Operator::Slash
                | Operator::Percent
                | Operator::And
                | Operator::Or
                | Operator::Caret
                | Operator::ShiftLeft
                | Operator::ShiftRight => Some(Some(operator)),
                _ => None,
            },
            _ => None,
        },
    }
}

/// The header that the next token includes.
pub fn at_header(tokens: &[Token]) -> Option<Header>
    ensures { IsNext (λ h. TheVariants.Include h) headers tokens.now result }
{
    match tokens {
        [] => None,
        [token, ..] => match token.class {
            Class::Include(header) => Some(header),
            _ => None,
        },
    }
}

/// The datatype that the next token is.
pub fn at_datatype(tokens: &[Token]) -> Option<Datatype>
    ensures { IsNext (λ d. TheVariants.Element d) datatypes tokens.now result }
{
    match tokens {
        [] => None,
        [token, ..] => match token.class {
            Class::Element(datatype) => Some(datatype),
            _ => None,
        },
    }
}

/// The reduction that the next token is.
pub fn at_reduction(tokens: &[Token]) -> Option<Reduction>
    ensures { IsNext (λ r. TheVariants.Fold r) reductions tokens.now result }
{
    match tokens {
        [] => None,
        [token, ..] => match token.class {
            Class::Fold(reduction) => Some(reduction),
            _ => None,
        },
    }
}
