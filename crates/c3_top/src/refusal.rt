ghost use Rattle.std.specs.Prelude.{◌≡◌, IfOk};
ghost use Rattle.c3_top.specs.Refusal.{name_of, refusal};

use c_tree::Kind;
use c3_base::{NoMemory, append};
use std::alloc::Global;

/// What is written where a text is refused.
pub fn refusal(alloc: Global, kind: Kind, at: u32) -> Result<Vec<u8>, NoMemory>
    ensures { IfOk result (λ text. text.items ≡ refusal kind at) }
{
    let mut text = Vec::from_slice(alloc, b"refused ")?;
    append(&mut text, name(kind))?;
    let place = format!(in alloc; " at {at}\n")?;
    append(&mut text, place.as_bytes())?;
    Ok(text)
}

/// The kind's name.
fn name(kind: Kind) -> &'static [u8]
    ensures { result.now ≡ name_of kind }
{
    match kind {
        Kind::NotYet => b"NotYet",
        Kind::TextLimit => b"TextLimit",
        Kind::Syntax => b"Syntax",
        Kind::TooDeep => b"TooDeep",
        Kind::NumberRange => b"NumberRange",
        Kind::UnknownName => b"UnknownName",
        Kind::Redeclared => b"Redeclared",
        Kind::NoMain => b"NoMain",
        Kind::BadMain => b"BadMain",
        Kind::NotScalar => b"NotScalar",
        Kind::NotInteger => b"NotInteger",
        Kind::NotPointer => b"NotPointer",
        Kind::NotStruct => b"NotStruct",
        Kind::NotPlace => b"NotPlace",
        Kind::TypeMismatch => b"TypeMismatch",
        Kind::ArgumentCount => b"ArgumentCount",
        Kind::CallPlace => b"CallPlace",
        Kind::MallocPlace => b"MallocPlace",
        Kind::ReturnValue => b"ReturnValue",
        Kind::LoopWord => b"LoopWord",
        Kind::ArraySize => b"ArraySize",
        Kind::IncompleteType => b"IncompleteType",
        Kind::PrototypeDiffers => b"PrototypeDiffers",
        Kind::Undefined => b"Undefined",
        Kind::FormatMismatch => b"FormatMismatch",
        Kind::Datatype => b"Datatype",
    }
}
