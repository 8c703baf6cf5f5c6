//! A disk of numbered files, which a stop may leave torn.
#![tactic(auto)]

mod calls;
mod disk;
mod file;
mod folder;
mod memory;
mod plan;
mod store;

pub use calls::Choice;
pub use disk::Disk;
pub use folder::FolderDisk;
pub use memory::MemDisk;
