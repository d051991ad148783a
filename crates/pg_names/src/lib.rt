//! Names with numbers: each text is kept once, and its number says how many different texts were added before it.
//!
//! A protocol's caches, states and messages are read as words and then spoken of by number. Looking a text up takes about the
//! same time however many names there are, and only a new name takes memory. What callers' proofs cite of numbers stands in
//! `proofs/Numbers.antt`, with `numbers` for `grind`.
#![tactic(auto)]

mod names;
#[cfg(test)]
mod tests;

pub use names::{Added, Names};
