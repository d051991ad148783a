//! What is counted of what happened on blocks, and the summary of a drill that tells it.
#![tactic(auto)]

mod laws;
mod summary;
mod tally;

pub use laws::{each_step_is_counted_once, tallies_add_up, worked_summaries, worked_tallies};
pub use summary::summary_text;
pub use tally::{Tally, tally_of};

#[cfg(test)]
mod tests;
