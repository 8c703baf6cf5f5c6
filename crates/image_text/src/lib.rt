//! Images of ranks, and their files.
#![tactic(auto)]

mod field;
mod fields;
mod image;
mod object;
mod state;
mod whole;

pub use field::Field;
pub use image::Image;
pub use object::SavedObject;
pub use state::RankState;
pub use whole::{NotImage, read_image, write_image};
