//! The schedule of a job, as text: words with spaces, tabs and ends of lines between them.
//!
//! `t2` is a turn of rank 2, and `k2` its kill. `d1>2` and `c1>2` deliver an application and a control
//! message from rank 1 to rank 2. `s` is a sweep, `w` a wave, `x` a restart, and `r` a turn of each
//! rank and then a sweep. After a word `*5` makes it five.
#![tactic(auto)]

mod byte;
mod entry;
mod fault;
mod number;
mod reading;
mod schedule;

pub use fault::ScheduleFault;
pub use reading::read_schedule;
pub use schedule::Schedule;
