//! The order of the directory.
#![tactic(auto)]

mod laws;

pub use laws::{no_overtaking, worked_orders};
