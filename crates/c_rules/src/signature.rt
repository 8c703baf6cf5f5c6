//! Functions as they are called.

ghost use Rattle.std.specs.Prelude.{◌≡◌};
ghost use Rattle.std.specs.Option.{option_copied};
ghost use Rattle.c_rules.specs.Table.{called};

use c_kernel::CType;
use indexmap::IndexMap;
use sqlite_items::Items;

/// The types of a function's first header, whether that header breaks no rule, and the number of its definition.
#[derive(Drop)]
pub struct Signature {
    pub result: CType,
    pub parameters: Items<CType>,
    pub sound: bool,
    pub number: Option<usize>,
}

/// A function and the name that it is called by: the name's first byte, and whether it is `main`.
#[derive(Clone, Copy)]
pub struct Callee<'f> {
    pub at: u32,
    pub main: bool,
    pub signature: &'f Signature,
}

/// The function of a name in a table.
pub fn function<'f>(
    functions: &'f IndexMap<Vec<u8>, Signature>,
    name: &[u8],
) -> Option<&'f Signature>
    ensures { option_copied result ≡ called functions.now.entries name.now }
{
    functions.get(name)
}
