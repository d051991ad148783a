//! The texts of a block's history and of its journal.
#![tactic(auto)]

mod history;
mod journal;
mod laws;
mod line;

pub use history::{history_text, write_history};
pub use journal::{journal_text, write_journal};
pub use laws::worked_histories;

#[cfg(test)]
mod tests;
