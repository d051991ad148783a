//! The calls of lines and of the directory may be made in each orderly world, and the order and the completed accesses of a reached world are bounded.
#![tactic(auto)]

mod laws;

pub use laws::{
    lines_are_ready, lists_are_no_longer_than_the_journal, lists_are_no_longer_than_the_operations,
    the_directory_is_ready,
};
