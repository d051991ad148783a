//! A block's history in serial order, from the order of its directory and the operations that its cores completed.
#![tactic(auto)]

mod laws;
mod lists;
mod order;

pub use laws::{
    accesses_go_by_stamp, elements_are_put_last, groups_stand_after_their_entries,
    operations_go_by_core,
};
pub use order::serial_steps;

#[cfg(test)]
mod tests;
