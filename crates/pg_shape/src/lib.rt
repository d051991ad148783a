//! The shape of a protocol: the rules S1 to S19, the first fault, and the protocols that have none.
//!
//! docs/TEXT.md states the rules and why each is there.
#![tactic(auto)]

mod cache_rules;
mod core_rules;
mod dir_rules;
mod error;
mod faults;
mod laws;
mod message_rules;
mod next_rules;
mod protocol;
mod row_rules;
mod take_rules;
mod text_rules;

pub use error::ShapeError;
pub use laws::{
    evicts_are_clean_or_dirty, first_fault_is_exact, invalidations_need_a_shared_state,
    missing_take_rows_are_found, named_replies_may_come, nothing_stands_twice, owners_are_few,
    take_rows_are_due, what_the_shape_gives,
};
pub use pg_terms::DirCase;
pub use protocol::{Protocol, shape};
