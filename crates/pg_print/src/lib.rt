//! The text of the tables of a protocol's controllers, a line for each state and each row.
//!
//! The first line names the protocol and the mode. Then come the states of the cache controller, `state NAME`, and its rows state by state,
//! `on NAME INPUT ACTS -> NAME`; then the same of the directory controller, with `home` and `at`; and last `end`. docs/TABLES.md has the states,
//! inputs and acts.
//!
//! A stable state has its own name. One that waits has the name of the state on which it stands, in which its operation began or to which forwards
//! have led it since, and that of the final state of the first reply of its core line, or out for an evict, with a dot between them where one of the
//! two has more than a character; and then what it waits for, and its tag: `IM_AD_gone`.
#![tactic(auto)]

mod controller;
mod laws;
mod line;
mod name;
mod printer;
#[cfg(test)]
mod tests;
mod word;
mod wording;

pub use laws::{
    inputs_are_told_apart, names_are_told_apart, worked_owner_texts, worked_texts,
    worked_variant_texts,
};
pub use printer::table_text;
