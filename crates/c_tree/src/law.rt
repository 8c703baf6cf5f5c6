//! What is proved of a text's tokens.

ghost use Rattle.c_tree.specs.Tokens.{IsOneList, IsScanned};

/// The scan of a text gives its tokens.
pub fn scans()
    ensures { IsScanned }
{}

/// A text has one list of tokens.
pub fn one()
    ensures { IsOneList }
{}
