//! The order of a block's entries with its accesses placed in it, as a run of the atomic machine.
#![tactic(auto)]

mod laws;

pub use laws::{
    accesses_are_placed, accesses_keep_their_order, entries_append, entries_follow_the_order,
    grants_are_fresh, groups_are_runs, groups_are_sorted, load_hits_are_faithful, loads_insert,
    requests_are_faithful, serial_is_a_run, store_hits_are_faithful, stores_insert, words_stay,
    worked_rows_stand,
};
