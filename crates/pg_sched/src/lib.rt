//! The picks of a schedule, drawn from a seed.
#![tactic(auto)]

mod laws;
mod pick;
#[cfg(test)]
mod tests;

pub use laws::first_picks;
pub use pick::Pick;
