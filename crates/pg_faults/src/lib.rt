//! First faults: the least line that breaks a rule, and of the rules that it breaks the least.
#![tactic(auto)]

mod error;

pub use error::LineError;
