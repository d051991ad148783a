//! The networks of a block: what is on its way between its cores and the directory.
#![tactic(auto)]

mod laws;
mod queue;
#[cfg(test)]
mod tests;
mod wires;

pub use laws::{
    any_reply_may_be_taken, messages_take_room, messages_to_a_core_keep_their_order,
    requests_stand_in_their_slots,
};
pub use wires::Wires;
