//! Worlds.
#![tactic(auto)]

mod laws;

pub use laws::{openings_are_orderly, worked_claims};
