/// What a program text is refused for.
#[derive(Clone, Copy, Debug, PartialEq, Eq)]
pub enum Kind {
    /// It has a part of the language that isn't built yet.
    NotYet,
    /// It is longer than 65,536 bytes.
    TextLimit,
    /// Its tokens up to here begin no program.
    Syntax,
    /// A token stands at level 65.
    TooDeep,
    /// A number is 2^63 or more.
    NumberRange,
    UnknownName,
    Redeclared,
    NoMain,
    BadMain,
    NotScalar,
    NotInteger,
    NotPointer,
    NotStruct,
    NotPlace,
    TypeMismatch,
    ArgumentCount,
    CallPlace,
    MallocPlace,
    ReturnValue,
    LoopWord,
    ArraySize,
    IncompleteType,
    PrototypeDiffers,
    Undefined,
    FormatMismatch,
    Datatype,
}
