//! Structs: their members one after the other, and the rules of their definitions (C99 6.7.2.1).

ghost use Rattle.std.specs.Prelude.{◌≡◌, Some, None, IfOk, OnOk, is_some, if◌then◌else◌};
ghost use Rattle.c_rules.specs.Judged.{Notes};
ghost use Rattle.c_rules.specs.Types as types;
ghost use Rattle.c_check.specs.Structs as rules;

use crate::declaration::sizes_of;
use crate::judge::Judge;
use c_kernel::{Extent, Member, ObjectType, Struct, extent_of};
use c_rules::rules::{is_named, member_at};
use c_rules::types::{
    element_cells, is_incomplete, note_specifier, number_of, object_type, room, type_of,
};
use c_tree::Kind;
use c_tree::tree::{Item, MemberDeclaration, MemberDeclarator, MemberName, Name, TypeSpecifier};
use sqlite_items::Items;
use std::alloc::{AllocError, Global};

// The name of a struct whose members are laid out, and the structs before it.
#[derive(Clone, Copy)]
struct Own<'a> {
    structs: &'a [Struct],
    name: &'a [u8],
}

// The members so far, the room that they take, and whether one has found none.
#[derive(Drop)]
struct Laid {
    members: Items<Member>,
    extent: Extent,
    full: bool,
}

/// Adds the struct that an item defines.
pub fn add_struct(alloc: Global, structs: &mut Items<Struct>, item: &Item) -> Result<(), AllocError>
    ensures { OnOk result (structs.new ≡ rules.with_item structs.old item.now) }
{
    match item {
        Item::Include { .. } | Item::Prototype(_) | Item::Function { .. } => Ok(()),
        Item::Struct { name, members, .. } => {
            let found = structure(alloc, structs.as_slice(), name, members.as_slice())?;
            structs.push(found)
        }
    }
}

// A struct of these members, whose broken rules are noted elsewhere.
fn structure(
    alloc: Global,
    structs: &[Struct],
    name: &Name,
    members: &[MemberDeclaration],
) -> Result<Struct, AllocError>
    ensures { IfOk result (λ found. found ≡ rules.struct_of name.now.bytes (rules.laid_out structs.now name.now.bytes rules.none_laid members.now)) }
{
    let name = name.bytes.as_slice();
    let mut unheeded = Judge::new(alloc);
    let laid = unheeded.lay_out(Own { structs, name }, members)?;
    Ok(Struct {
        name: Items::from_slice(alloc, name)?,
        members: laid.members,
        extent: laid.extent,
    })
}

// ---- members one after the other

// Whether one of the members has this name.
fn is_known(members: &[Member], name: &MemberName) -> bool
    ensures { result ≡ is_some (types.numbered 0 members.now (types.member_bytes name.now)) }
{
    for member in members {
        if is_named(member, name) {
            return true;
        }
    }
    false
}

// A member of elements that take this room each, behind those so far.
fn place(
    alloc: Global,
    laid: &mut Laid,
    name: &MemberName,
    kind: ObjectType,
    each: Extent,
) -> Result<(), AllocError>
    ensures { OnOk result (laid.new ≡ rules.placed laid.old (types.member_bytes name.now) kind (rules.room_of each kind.cells)) }
{
    let name = bytes_of(alloc, name)?;
    let place = laid.extent.cells;
    let whole = grown(laid.extent, each, kind.cells);
    laid.members.push(Member { name, kind, place })?;
    match whole {
        None => laid.full = true,
        Some(extent) => laid.extent = extent,
    }
    Ok(())
}

fn bytes_of(alloc: Global, name: &MemberName) -> Result<Items<u8>, AllocError>
    ensures { IfOk result (λ bytes. bytes ≡ types.member_bytes name.now) }
{
    match name {
        MemberName::Name(name) => Items::from_slice(alloc, name.bytes.as_slice()),
        MemberName::Source(_) => Items::from_slice(alloc, b"MPI_SOURCE"),
        MemberName::Tag(_) => Items::from_slice(alloc, b"MPI_TAG"),
    }
}

const LARGEST_CELLS: u64 = 8192;

// A cell has at most 16 bytes.
const LARGEST_SIZE: u64 = 131072;

// This room and that of so many cells more, of elements that take this room each; none, where it is too large.
fn grown(taken: Extent, each: Extent, cells: u32) -> Option<Extent>
    ensures { let whole = rules.added taken (rules.room_of each cells) in result ≡ if rules.is_within whole then Some whole else None }
{
    let count = cells.checked_div(each.cells).unwrap_or(0);
    let cells = u64::from(taken.cells) + u64::from(cells);
    let size = u64::from(taken.size) + u64::from(count) * u64::from(each.size);
    if cells > LARGEST_CELLS || size > LARGEST_SIZE {
        return None;
    }
    Some(Extent {
        cells: cells as u32,
        size: size as u32,
    })
}

impl Judge {
    /// The rules of a struct's definition.
    #[tactic(auto, using(std::proofs::Common::append_assoc))]
    pub fn note_struct(
        &mut self,
        structs: &[Struct],
        name: &Name,
        members: &[MemberDeclaration],
    ) -> Result<(), AllocError>
        ensures { OnOk result (Notes self.old.breaches self.new.breaches (rules.struct_rules structs.now name.now members.now)) }
    {
        let at = name.at;
        let name = name.bytes.as_slice();
        self.rule(number_of(structs, name).is_some(), Kind::Redeclared, at)?;
        let mark = self.mark();
        let laid = self.lay_out(Own { structs, name }, members)?;
        let broke = self.broke(mark);
        self.rule(!broke && laid.full, Kind::ArraySize, at)
    }

    // The members of a struct, one after the other.
    #[tactic(auto, using(std::proofs::Common::append_assoc))]
    fn lay_out(&mut self, own: Own<'_>, members: &[MemberDeclaration]) -> Result<Laid, AllocError>
        ensures laid { IfOk result (λ laid. laid ≡ rules.laid_out own.entry.structs.now own.entry.name.now rules.none_laid members.now) }
        ensures breaches { OnOk result (Notes self.old.breaches self.new.breaches (rules.parts_rules own.entry.structs.now own.entry.name.now rules.none_laid members.now)) }
    {
        let mut laid = Laid {
            members: Items::new(self.alloc),
            extent: Extent { cells: 0, size: 0 },
            full: false,
        };
        for part in members {
            note_specifier(
                &mut self.breaches,
                own.structs,
                Some(own.name),
                &part.specifier,
            )?;
            self.lay_members(own, &part.specifier, &mut laid, part.declarators.as_slice())?;
        }
        Ok(laid)
    }

    // Members of one specifier.
    #[tactic(auto, using(std::proofs::Common::append_assoc))]
    fn lay_members(
        &mut self,
        own: Own<'_>,
        specifier: &TypeSpecifier,
        laid: &mut Laid,
        members: &[MemberDeclarator],
    ) -> Result<(), AllocError>
        ensures laid { OnOk result (laid.new ≡ rules.with_members own.entry.structs.now own.entry.name.now specifier.now laid.old members.now) }
        ensures breaches { OnOk result (Notes self.old.breaches self.new.breaches (rules.members_rules own.entry.structs.now own.entry.name.now specifier.now laid.old members.now)) }
    {
        for member in members {
            self.lay(own, specifier, laid, member)?;
        }
        Ok(())
    }

    // One member behind those so far.
    #[tactic(auto, using(std::proofs::Common::append_assoc))]
    fn lay(
        &mut self,
        own: Own<'_>,
        specifier: &TypeSpecifier,
        laid: &mut Laid,
        member: &MemberDeclarator,
    ) -> Result<(), AllocError>
        ensures laid { OnOk result (laid.new ≡ rules.with_member own.entry.structs.now own.entry.name.now specifier.now laid.old member.now) }
        ensures breaches { OnOk result (Notes self.old.breaches self.new.breaches (rules.member_rules own.entry.structs.now own.entry.name.now specifier.now laid.old member.now)) }
    {
        let at = member_at(&member.name);
        let known = is_known(laid.members.as_slice(), &member.name);
        self.rule(known, Kind::Redeclared, at)?;
        let element = type_of(own.structs, Some(own.name), specifier, member.stars);
        let sizes = sizes_of(self.alloc, member.sizes.as_slice())?;
        let large = room(element_cells(own.structs, element), sizes.as_slice()).is_none();
        self.rule(large, Kind::ArraySize, at)?;
        let incomplete = is_incomplete(own.structs, element);
        self.rule(incomplete, Kind::IncompleteType, at)?;
        let kind = object_type(self.alloc, own.structs, element, sizes.as_slice())?;
        let each = extent_of(own.structs, element);
        place(self.alloc, laid, &member.name, kind, each)
    }
}
