//! The typed program: its types, and functions in which each name is resolved and each conversion stands.
#![tactic(auto)]

pub mod program;
mod types;

pub use types::{
    Base, CType, Extent, IntegerType, Member, ObjectType, Struct, copies_of_structs,
    copies_of_types, element_type, extent_of,
};
