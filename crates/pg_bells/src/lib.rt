//! Bells: threads ring, each for its core, and workers answer.
#![tactic(auto)]

mod bell;
mod bells;
mod dealing;
mod gathering;
mod laws;
mod pass;
#[cfg(test)]
mod tests;
mod view;

pub use bell::{Bell, Full};
pub use bells::Bells;
pub use laws::{answers_rise, bells_stand, no_bell_stands_twice, what_is_left, worked_histories};
pub use pass::{AnswerPass, RingPass};
