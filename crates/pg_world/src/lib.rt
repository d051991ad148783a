//! A block's world: its cores with their lines, its networks, its directory, and what happened so far.
#![tactic(auto)]

mod index;
mod laws;
mod marks;
mod todo;
mod turns;
mod world;

pub use laws::enabled_events_are_all;
pub use todo::Todo;
pub use turns::WorldRoot;
pub use world::World;
