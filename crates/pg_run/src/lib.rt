//! The run of a script: the worlds of all blocks, on the schedule of a seed.
#![tactic(auto)]

mod counted;
mod draws;
mod laws;
mod opening;
mod system;

pub use laws::{
    every_turn_happens, schedules_end, schedules_keep_blocks_reached, schedules_take_turns,
    turns_follow_picks,
};
pub use system::System;
