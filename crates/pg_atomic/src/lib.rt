//! The atomic machine of a block, in which a whole transaction is one step.
#![tactic(auto)]

mod laws;
mod machine;
mod rows;

pub use laws::{
    entries_follow_requests, loads_give_the_last_store, needed_requests_are_legal,
    operations_are_runs, runs_are_safe, runs_in_parts, runs_make_legal_requests,
    safe_states_run_safely, steps_keep_safety, stores_leave_dirty_owners,
    transactions_move_each_core, worked_runs,
};
pub use machine::{Atomic, TxnAnswer};
