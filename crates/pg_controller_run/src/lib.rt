//! The run of a script on the generated controllers of a protocol, and the histories of its blocks in serial order.
#![tactic(auto)]

mod history;
mod laws;
mod run;

pub use history::serial;
pub use laws::histories_are_atomic_runs;
pub use run::controller_run;

#[cfg(test)]
mod tests;
