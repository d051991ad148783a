//! What a directory knows of a block, which follows from the requests alone: its state, the owner and the sharers.
//!
//! The definitions are in `specs/`, and the laws here say of one request, and of requests one after another, what they do to them, in each
//! protocol. The atomic machine and all runs of the controllers are built on them. docs/MODEL.md tells what they mean.
#![tactic(auto)]

mod core_set;
mod laws;

pub use core_set::CoreSet;
pub use laws::{
    forwards_go_to_holders, kinds_are_told_apart, kinds_tell_who_is_who, legal_lists_are_handled,
    requests_are_handled, starts_are_sound,
};
