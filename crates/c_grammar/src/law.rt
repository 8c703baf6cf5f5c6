//! What is proved of the grammar.

ghost use Rattle.c_grammar.specs.Fitting.{IsFitting};
ghost use Rattle.c_grammar.specs.Program.{IsExact, IsOne};
ghost use Rattle.c_grammar.specs.Text.{IsParsedOnce};
ghost use Rattle.c_grammar.specs.Textbook.{IsTextbook};
ghost use Rattle.c_grammar.specs.Trees.{IsFixed};

/// The meaning of the grammar is that of a textbook.
pub fn textbook()
    ensures { IsTextbook }
{}

/// A descent with one token of memory tells the tree of the tokens, or their first fault.
pub fn exact()
    ensures { IsExact }
{}

/// A descent has one outcome.
pub fn one()
    ensures { IsOne }
{}

/// A text's tokens have the values that stand in a tree.
pub fn fitting()
    ensures { IsFitting }
{}

/// Two trees with one parse tree are equal.
#[tactic(auto, using(crate::proofs::OneTree::is_fixed))]
pub fn fixed()
    ensures { IsFixed }
{}

/// A text has one tree or one first fault, and never both.
pub fn parsed_once()
    ensures { IsParsedOnce }
{}
