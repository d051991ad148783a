//! Scripts: the loads, stores and evicts of cores on blocks, in the order in which they are asked for.
//!
//! docs/SCRIPTS.md has the form of a script and the rules C1 to C5.
#![tactic(auto)]

mod drill;
mod error;
mod laws;
mod numbers;
mod printer;
mod reader;
mod reading;
mod script;
mod statement;
mod text;

pub use drill::drill_script;
pub use error::ScriptError;
pub use laws::{
    drills_are_within_the_bounds, first_fault_is_exact, forms_are_exact,
    operations_go_by_core_and_block, printing_is_exact, scripts_are_kept, worked_drills,
    worked_first_faults, worked_scripts,
};
pub use numbers::number_of;
pub use printer::print;
pub use script::{Ops, Script, ScriptOp, ScriptOps, on_block};
pub use text::read;

#[cfg(test)]
mod tests;
