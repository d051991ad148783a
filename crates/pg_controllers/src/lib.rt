//! What generated controllers are and do: lines, the directory, networks, worlds and their events, as definitions that the crates above share.
#![tactic(auto)]

mod laws;

pub use laws::worked_runs;
