//! A block's world in parts: the tables, the lines, what each core has still to begin, the networks, the directory, and what happened.
#![tactic(auto)]

mod block;
mod opening;
mod program;

pub use block::Block;
pub use program::Program;
