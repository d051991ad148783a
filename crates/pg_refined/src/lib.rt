//! The run that an orderly world makes.
#![tactic(auto)]

mod laws;

pub use laws::{openings_are_faithful, worked_histories, worlds_are_runs};
