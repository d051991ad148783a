//! Drills: the script of a seed runs on the controllers of MOESI, and what happened is summed up.
#![tactic(auto)]

mod counting;
mod laws;
mod protocol;
mod run;

pub use laws::{drills_are_atomic_runs, worked_blocks, worked_drills};
pub use run::drill;

#[cfg(test)]
mod tests;
