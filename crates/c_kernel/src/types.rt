mod copy;

ghost use Rattle.std.specs.Prelude.{◌≡◌};
ghost use Rattle.c_kernel.specs.Extent as extents;
ghost use Rattle.c_kernel.specs.Elements as elements;

pub use copy::{copies_of_structs, copies_of_types};
use mpi_words::Datatype;
use sqlite_items::Items;

/// A type that is no array (C99 6.2.5): of what a function gives, a value, or an array's innermost elements. It is a pointer behind so many stars to the base, or without stars the base itself.
#[derive(Clone, Copy, PartialEq, Eq)]
pub struct CType {
    pub base: Base,
    pub stars: usize,
}

/// A type that is neither a pointer nor an array.
#[derive(Clone, Copy, PartialEq, Eq)]
pub enum Base {
    Integer(IntegerType),
    /// The result of a function that gives none. `NULL` is a pointer to it, and no other value is.
    Void,
    /// The struct with this number in the program.
    Struct(usize),
}

/// A signed integer type: char has 8 bits, int 32, long 64.
#[derive(Clone, Copy, PartialEq, Eq)]
pub enum IntegerType {
    Char,
    Int,
    Long,
}

/// The type of a variable or member, and how many cells it has.
#[derive(Drop)]
pub struct ObjectType {
    pub element: CType,
    /// Those of an array, the outermost first.
    pub sizes: Items<u32>,
    pub cells: u32,
}

/// The room that an object takes: in cells, and what `sizeof` gives for its type (C99 6.5.3.4).
#[derive(Clone, Copy, PartialEq, Eq)]
pub struct Extent {
    pub cells: u32,
    pub size: u32,
}

/// A struct (C99 6.7.2.1). It has no padding.
#[derive(Drop)]
pub struct Struct {
    pub name: Items<u8>,
    pub members: Items<Member>,
    pub extent: Extent,
}

/// A member, which begins at this cell of its struct.
#[derive(Drop)]
pub struct Member {
    pub name: Items<u8>,
    pub kind: ObjectType,
    pub place: u32,
}

/// The room that an object of a type takes among these structs.
pub fn extent_of(structs: &[Struct], kind: CType) -> Extent
    ensures { result ≡ extents.extent structs.now kind }
{
    if kind.stars > 0 {
        return Extent { cells: 1, size: 16 };
    }
    match kind.base {
        Base::Integer(kind) => Extent {
            cells: 1,
            size: integer_size(kind),
        },
        Base::Void => Extent { cells: 0, size: 0 },
        Base::Struct(number) => struct_extent(structs, number),
    }
}

fn integer_size(kind: IntegerType) -> u32
    ensures { result ≡ extents.integer_size kind }
{
    match kind {
        IntegerType::Char => 1,
        IntegerType::Int => 4,
        IntegerType::Long => 8,
    }
}

fn struct_extent(structs: &[Struct], number: usize) -> Extent
    ensures { result ≡ extents.struct_extent structs.now number }
{
    match structs.get(number) {
        None => Extent { cells: 0, size: 0 },
        Some(found) => found.extent,
    }
}

/// The type of a message's elements (MPI 3.1 3.2.2).
pub fn element_type(kind: Datatype) -> IntegerType
    ensures { result ≡ elements.element_type kind }
{
    match kind {
        Datatype::Char => IntegerType::Char,
        Datatype::Int => IntegerType::Int,
        Datatype::Long => IntegerType::Long,
    }
}
