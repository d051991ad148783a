//! What a line with an outstanding operation waits for, and the forwards that it answers afterwards.
#![tactic(auto)]

mod acks;
mod deferred;
mod laws;
#[cfg(test)]
mod tests;

pub use acks::Acks;
pub use deferred::Deferred;
pub use laws::{acknowledgements_are_got_or_missing, forwards_are_deferred_in_order};
