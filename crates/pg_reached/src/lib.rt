//! What holds of every world that generated controllers reach (docs/MODEL.md).
//!
//! Each law has one premise on the world, `IsReachedWorld`: its caches follow a sound table of a protocol of the shape, stalling, deferring or mixed, and its
//! journal leads to it from the opening. So each law holds for every number of cores, every list of operations and every order of deliveries.
#![tactic(auto)]

mod laws;

pub use laws::{
    cores_that_are_through_stay_so, each_delivery_has_one_row, enabled_events_can_happen,
    lines_are_stable_when_done, messages_name_pending_requests, only_later_heads_wait,
    openings_are_reached, reached_acknowledgements_add_up, reached_networks_are_bounded,
    reached_worlds_are_never_stuck, reached_worlds_are_orderly,
    reached_worlds_have_a_single_writer, runs_are_bounded, steps_lead_to_reached_worlds,
    the_directory_is_that_of_its_requests,
};
