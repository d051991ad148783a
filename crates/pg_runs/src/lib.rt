//! The headline: each run of the controllers is a run of the atomic machine (docs/MODEL.md).
#![tactic(auto)]

mod laws;

pub use laws::{
    events_keep_worlds_refined, finished_worlds_completed_all, loads_give_the_latest_store,
    reached_worlds_are_runs,
};
