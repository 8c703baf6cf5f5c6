//! Tests of what crosses the crates: texts and inputs, and what is answered to them.
#![tactic(auto)]

#[cfg(test)]
mod calls;
#[cfg(test)]
mod checks;
#[cfg(test)]
mod examples;
#[cfg(test)]
mod flat;
#[cfg(test)]
mod long;
#[cfg(test)]
mod messages;
#[cfg(test)]
mod passed;
#[cfg(test)]
mod printed;
#[cfg(test)]
mod queues;
#[cfg(test)]
mod rows;
#[cfg(test)]
mod rules;
#[cfg(test)]
mod runs;
#[cfg(test)]
mod schedules;
#[cfg(test)]
mod streams;
#[cfg(test)]
mod texts;
#[cfg(test)]
mod types;
