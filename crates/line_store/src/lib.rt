//! A job's files on a disk, and what a stop at any moment leaves of them.
#![tactic(auto)]

mod codes;
mod end;
mod fault;
mod files;
mod gate;
mod job;
mod line;
mod loads;
mod saves;

pub use end::finish;
pub use fault::StoreFault;
pub use gate::make_job;
pub use job::Job;
pub use line::{commit, committed, settle};
pub use loads::{ended, find_job, load_line, read_ends, read_output};
pub use saves::{append_output, cut_outputs, save_local, save_log};
