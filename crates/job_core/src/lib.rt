//! A job under a schedule.
#![tactic(auto)]

mod begin;
mod effect;
mod event;
mod job;
mod moves;
mod next;
mod sweep;
mod turns;
mod view;

pub use effect::Effect;
pub use event::Event;
pub use job::Core;
pub use view::{Life, View};
