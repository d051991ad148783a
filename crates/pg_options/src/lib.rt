//! The words that the program is called with: a command and its options.
//!
//! `taken` says whether words are those of a command, and `command_of` reads them: docs/OPTIONS.md has the rule.
#![tactic(auto)]

mod command;
mod given;
mod laws;
mod names;
mod parser;
mod rule;

pub use command::{Command, Drill, Machine, Task, command_of};
pub use laws::{options_are_spelled, worked_commands, worked_refusals};
pub use names::{CommandName, OptionName};
pub use rule::taken;

#[cfg(test)]
mod tests;
