//! Reads the text of a protocol, and prints it.
#![tactic(auto)]

mod error;
mod laws;
mod printer;
mod reader;
mod spelled;
mod text;

pub use error::TextError;
pub use laws::{first_fault_is_exact, lines_are_kept, printing_is_exact, worked_texts};
pub use printer::print;
pub use text::read;
