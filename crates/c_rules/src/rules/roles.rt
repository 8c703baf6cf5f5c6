//! The arguments of MPI's calls.

ghost use Rattle.std.specs.Prelude.{◌≡◌, IfOk, OnOk};
ghost use Rattle.c_rules.specs.Judged.{Notes};
ghost use Rattle.c_rules.specs.Roles as arguments;

use crate::breach::{Breach, rule};
use crate::found::Found;
use crate::rules::values::{are_alike, c_type_of, number, scalar, value, value_in};
use crate::types::{integer, is_pointer, pointer_to, status_type};
use c_kernel::program::{Expr, MpiFunction};
use c_kernel::{CType, IntegerType, element_type};
use c_tree::Kind;
use sqlite_items::{Boxed, Items};
use std::alloc::{AllocError, Global};

/// What an argument of a call of MPI is.
#[derive(Clone, Copy)]
pub enum Role {
    /// A count, rank or tag.
    Number,
    /// A buffer of such elements.
    Buffer(IntegerType),
    /// A pointer to an object of this type.
    Pointer(CType),
}

/// The arguments that have values, in the text's order. The status, which is the last, may be left out.
pub fn roles_of(alloc: Global, function: MpiFunction) -> Result<Items<Role>, AllocError>
    ensures { IfOk result (λ roles. roles ≡ arguments.roles_of function) }
{
    let int = Role::Pointer(integer(IntegerType::Int));
    let status = Role::Pointer(status_type());
    let number = Role::Number;
    match function {
        MpiFunction::Init | MpiFunction::Finalize => Ok(Items::new(alloc)),
        MpiFunction::CommRank | MpiFunction::CommSize => Items::from_slice(alloc, &[int]),
        MpiFunction::Send(kind) => {
            let buffer = Role::Buffer(element_type(kind));
            Items::from_slice(alloc, &[buffer, number, number, number])
        }
        MpiFunction::Recv(kind) => {
            let buffer = Role::Buffer(element_type(kind));
            Items::from_slice(alloc, &[buffer, number, number, number, status])
        }
        MpiFunction::GetCount(_) => Items::from_slice(alloc, &[status, int]),
    }
}

// Where a pointer to objects of the type is needed, or NULL.
fn note_pointed(breaches: &mut Vec<Breach>, c_type: CType, a: &Found) -> Result<(), AllocError>
    ensures { OnOk result (Notes breaches.old breaches.new (arguments.points_rules c_type a.now)) }
{
    let other = !are_alike(pointer_to(c_type), c_type_of(a));
    rule(breaches, other, Kind::Datatype, a.at)
}

#[tactic(auto, using(std::proofs::Common::append_assoc))]
fn note_buffer(breaches: &mut Vec<Breach>, kind: IntegerType, a: &Found) -> Result<(), AllocError>
    ensures { OnOk result (Notes breaches.old breaches.new (arguments.role_rules (Role.Buffer kind) a.now)) }
{
    scalar(breaches, a.at, c_type_of(a))?;
    rule(breaches, !is_pointer(c_type_of(a)), Kind::NotPointer, a.at)?;
    note_pointed(breaches, integer(kind), a)
}

#[tactic(auto, using(std::proofs::Common::append_assoc))]
fn note_role(breaches: &mut Vec<Breach>, role: Role, a: &Found) -> Result<(), AllocError>
    ensures { OnOk result (Notes breaches.old breaches.new (arguments.role_rules role a.now)) }
{
    match role {
        Role::Number => number(breaches, a.at, c_type_of(a)),
        Role::Buffer(kind) => note_buffer(breaches, kind, a),
        Role::Pointer(c_type) => {
            scalar(breaches, a.at, c_type_of(a))?;
            note_pointed(breaches, c_type, a)
        }
    }
}

/// The rules of the arguments that are given.
#[tactic(auto, using(std::proofs::Common::append_assoc))]
pub fn note_roles(
    breaches: &mut Vec<Breach>,
    roles: &[Role],
    found: &[Boxed<Found>],
) -> Result<(), AllocError>
    ensures { OnOk result (Notes breaches.old breaches.new (arguments.roles_rules roles.now found.now)) }
{
    let mut rest = found;
    for role in roles {
        match rest {
            [] => return Ok(()),
            [a, more @ ..] => {
                note_role(breaches, *role, a.get())?;
                rest = more;
            }
        }
    }
    Ok(())
}

fn role_value(alloc: Global, role: Role, a: Boxed<Found>) -> Result<Boxed<Expr>, AllocError>
    ensures { IfOk result (λ e. e ≡ arguments.role_value role a) }
{
    match role {
        Role::Number => value_in(alloc, IntegerType::Int, a),
        Role::Buffer(_) | Role::Pointer(_) => value(alloc, a),
    }
}

/// The values of the arguments that are given.
pub fn roles_values(
    alloc: Global,
    roles: &[Role],
    found: Items<Boxed<Found>>,
) -> Result<Items<Expr>, AllocError>
    ensures { IfOk result (λ values. values ≡ arguments.roles_values roles.now found) }
{
    let mut rest = found;
    let mut values = Items::new(alloc);
    for role in roles {
        if rest.is_empty() {
            return Ok(values);
        }
        let a = rest.remove(0);
        values.push(role_value(alloc, *role, a)?.into_inner())?;
    }
    Ok(values)
}
