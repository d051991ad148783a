//! Drafts a protocol: gives the names of its lines their numbers, and adds one line after another.
#![tactic(auto)]

mod drafting;
mod named;

pub use drafting::Drafting;
