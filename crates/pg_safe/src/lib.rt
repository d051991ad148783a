//! What holds of every orderly world.
#![tactic(auto)]

mod laws;

pub use laws::{
    acknowledgements_add_up, busy_while_one_share_is_open, cores_stay_through,
    events_lower_the_work, networks_are_bounded, nothing_lacks_its_row, only_later_heads_wait,
    runs_are_bounded, worked_worlds, worlds_are_never_stuck, writers_are_single,
};
