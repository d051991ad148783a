ghost use Rattle.std.specs.Prelude.{◌≡◌, length, IfOk};
ghost use Rattle.pg_runs.specs.Headline.{IsAtomicRun, serial_order};

use pg_perm::Steps;
use pg_regroup::serial_steps;
use pg_world::World;
use std::alloc::{AllocError, Global};

#[tactic(auto, using(crate::proofs::Final::given_length, crate::proofs::Final::world_runs))]
/// A block's history in serial order: the requests that the directory handled, in its order, with the loads and stores that are done placed among them.
///
/// The headline is its clause `run`: it is a run of the atomic machine, in which each core's accesses stand in the core's order, at each moment of each
/// run of the controllers. docs/MODEL.md tells what it means, and pg_regroup where each access stands. The time is linear in the history.
pub fn serial(alloc: Global, world: &World) -> Result<Steps, AllocError>
    ensures exact { IfOk result (λ steps. steps ≡ serial_order (length world.now.given) world.now.world) }
    ensures run { IsAtomicRun world.now.tables.protocol world.now.given world.now.world }
{
    let _journal = world.journal();
    serial_steps(alloc, world.cores(), world.order(), world.done())
}
