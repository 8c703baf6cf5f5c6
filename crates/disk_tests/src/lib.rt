//! Tests of files: the texts of images and logs, and disks.
#![tactic(auto)]

#[cfg(test)]
mod disks;
#[cfg(test)]
mod fields;
#[cfg(test)]
mod slow;
#[cfg(test)]
mod texts;
