//! The generator: the tables of both controllers, of the stable states of a protocol.
//!
//! docs/TABLES.md has them.
#![tactic(auto)]

mod asking;
mod choice;
mod choices;
mod controller;
mod directory;
mod forwards;
mod generator;
mod inputs;
mod laws;
mod stable;
mod states;
mod table;
mod tag_ends;

pub use generator::generate;
pub use laws::{
    answers_do_not_wait, earlier_forwards_move_the_start, later_forwards_grant,
    later_forwards_wait, the_race_order_decides,
};
