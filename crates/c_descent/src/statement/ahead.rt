//! What the next token of a statement is.

ghost use Rattle.std.specs.Prelude.{◌≡◌, ◌∷◌, []};
ghost use Rattle.c_tree.specs.declared.token.Class.TheVariants as class;
ghost use Rattle.c_grammar.specs.Grammar.{Mark, Ref, assignments, increments};
ghost use Rattle.c_grammar.specs.Meaning.{next_in, starts};
ghost use Rattle.c_grammar.specs.Readers.{IsNext};
ghost use Rattle.c_grammar.specs.Trees.{step_class};

use c_grammar::ahead::{at_assignment, next_is};
use c_tree::tree::Step;
use c_tree::{Class, Token};

/// The step that the next token is.
pub fn at_step(tokens: &[Token]) -> Option<Step>
    ensures { IsNext step_class increments tokens.now result }
{
    match tokens {
        [] => None,
        [token, ..] => match token.class {
            Class::PlusPlus => Some(Step::Increment),
            Class::MinusMinus => Some(Step::Decrement),
            _ => None,
        },
    }
}

/// Whether the next token is a step.
pub fn is_step(tokens: &[Token]) -> bool
    ensures { result ≡ next_in increments tokens.now }
{
    next_is(tokens, Class::PlusPlus) || next_is(tokens, Class::MinusMinus)
}

/// Whether the next token is the operator of an assignment.
pub fn is_assignment(tokens: &[Token]) -> bool
    ensures { result ≡ next_in assignments tokens.now }
{
    match at_assignment(tokens) {
        Some(_) => true,
        None => false,
    }
}

/// Whether the next token begins a mark.
pub fn at_mark(tokens: &[Token]) -> bool
    ensures { result ≡ starts (Ref Mark) tokens.now }
{
    next_is(tokens, Class::Checkpoint) || next_is(tokens, Class::PotentialCheckpoint)
}
