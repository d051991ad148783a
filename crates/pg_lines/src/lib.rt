//! Cuts a text into lines, and a line into words, and puts words together to lines.
#![tactic(auto)]

mod cut;
mod laws;
mod lines;
mod words;
mod writing;

pub use laws::{places_are_exact, worked_lines, worked_words, written_texts_are_exact};
pub use lines::split_line;
pub use words::Words;
pub use writing::put_line;

#[cfg(test)]
mod tests;
