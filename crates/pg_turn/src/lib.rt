//! A turn lock: passes take turns at a value that stands for a list of entries, and each knows how the list begins.
#![tactic(auto)]

mod closing;
mod kept;
mod laws;
mod making;
mod order;
mod taking;
#[cfg(test)]
mod tests;
mod turn;
mod view;

pub use kept::Kept;
pub use laws::{entries_by_maker, in_order_at_any_moment, new_entries_of_all, small_logs};
pub use order::Order;
pub use turn::{Pass, Turn};
pub use view::{Origin, Past, View};
