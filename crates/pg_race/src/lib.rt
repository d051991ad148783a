//! The race order: whether the transaction of a forward that a cache meets comes before or after the one that it has outstanding.
#![tactic(auto)]

mod laws;
mod race;

pub use laws::{forwards_go_to_holders, grants_come_before_forwards, loads_begin_as_out};
pub use race::order;

#[cfg(test)]
mod tests;
