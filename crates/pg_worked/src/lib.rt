//! Worked runs: what the invariant says of each of their worlds, part by part, and worlds that it refuses.
#![tactic(auto)]

mod laws;

pub use laws::{worked_refusals, worked_runs_are_orderly};
