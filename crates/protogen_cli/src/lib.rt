//! The program as a function: of the words it was called with, where its input comes from and where its output goes.
//! It reads the whole input, judges it, makes the whole output, and only then writes.
#![tactic(auto)]

mod command;
mod judge;
mod laws;
mod report;
mod status;
mod words;

pub use command::protogen;
pub use laws::worked_answers;
pub use status::Status;
pub use words::taken;

#[cfg(test)]
mod tests;
