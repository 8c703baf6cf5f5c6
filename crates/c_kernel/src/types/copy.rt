ghost use Rattle.std.specs.Prelude.{◌≡◌, IfOk};

use super::{Member, ObjectType, Struct};
use sqlite_items::Items;
use std::alloc::{AllocError, Global};

impl ObjectType {
    /// An equal type.
    pub fn copy(&self, alloc: Global) -> Result<ObjectType, AllocError>
        ensures { IfOk result (λ copy. copy ≡ self.now) }
    {
        Ok(ObjectType {
            element: self.element,
            sizes: Items::from_slice(alloc, self.sizes.as_slice())?,
            cells: self.cells,
        })
    }
}

impl Struct {
    /// An equal struct.
    pub fn copy(&self, alloc: Global) -> Result<Struct, AllocError>
        ensures { IfOk result (λ copy. copy ≡ self.now) }
    {
        Ok(Struct {
            name: Items::from_slice(alloc, self.name.as_slice())?,
            members: members(alloc, self.members.as_slice())?,
            extent: self.extent,
        })
    }
}

fn members(alloc: Global, members: &[Member]) -> Result<Items<Member>, AllocError>
    ensures { IfOk result (λ copies. copies ≡ members.now) }
{
    let mut copies = Items::new(alloc);
    for member in members {
        copies.push(member.copy(alloc)?)?;
    }
    Ok(copies)
}

impl Member {
    /// An equal member.
    pub fn copy(&self, alloc: Global) -> Result<Member, AllocError>
        ensures { IfOk result (λ copy. copy ≡ self.now) }
    {
        Ok(Member {
            name: Items::from_slice(alloc, self.name.as_slice())?,
            kind: self.kind.copy(alloc)?,
            place: self.place,
        })
    }
}

/// Equal structs.
pub fn copies_of_structs(alloc: Global, structs: &[Struct]) -> Result<Items<Struct>, AllocError>
    ensures { IfOk result (λ copies. copies ≡ structs.now) }
{
    let mut copies = Items::new(alloc);
    for structure in structs {
        copies.push(structure.copy(alloc)?)?;
    }
    Ok(copies)
}

/// Equal types.
pub fn copies_of_types(alloc: Global, types: &[ObjectType]) -> Result<Items<ObjectType>, AllocError>
    ensures { IfOk result (λ copies. copies ≡ types.now) }
{
    let mut copies = Items::new(alloc);
    for kind in types {
        copies.push(kind.copy(alloc)?)?;
    }
    Ok(copies)
}
