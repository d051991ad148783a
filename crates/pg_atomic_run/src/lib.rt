//! Runs a script on the atomic machine, a machine for each block, in the order of its lines.
#![tactic(auto)]

mod block;
mod laws;
mod run;

pub use laws::{histories_are_runs, worked_scripts};
pub use run::atomic_run;
