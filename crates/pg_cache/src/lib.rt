//! The controller of a line of a cache: what it does at each operation of its core and at each message.
#![tactic(auto)]

mod laws;
mod line;
mod received;
mod registers;

pub use laws::{
    deferred_forwards_are_served_in_order, operations_are_outstanding_until_done, worked_forwards,
    worked_operations, worked_room,
};
pub use line::Line;
