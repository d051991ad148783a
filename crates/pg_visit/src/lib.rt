//! A visit of a thread at a block: it takes the turn of the block's world, makes an event happen, and gives the world back.
#![tactic(auto)]

#[cfg(test)]
mod tests;
mod visiting;

pub use visiting::{step_and_give, visit};
