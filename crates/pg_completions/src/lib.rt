//! Events that keep worlds orderly: data, acknowledgements, counts, and invalidations that come early.
#![tactic(auto)]

mod laws;

pub use laws::{messages_keep_worlds_orderly, worked_answers};
