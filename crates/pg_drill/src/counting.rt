ghost use Rattle.std.specs.Prelude.{◌≡◌, ◌≤◌, ◌*◌, length, IfOk};
ghost use Rattle.pg_runs.specs.Headline.{serial_order};
ghost use Rattle.pg_world.specs.Kept.{operation_count};
ghost use Rattle.pg_run.specs.Systems.{todo_of};
ghost use Rattle.pg_tally.specs.Tallies as tallies;
ghost use Rattle.pg_drill.specs.Drills as drills;

use pg_controller_run::serial;
use pg_run::System;
use pg_script::Script;
use pg_tally::{Tally, tally_of};
use pg_world::World;
use std::alloc::{AllocError, Global};

/// The tally of a block.
fn tally_of_block(alloc: Global, world: &World) -> Result<Tally, AllocError>
    requires { operation_count world.now.given ≤ 16384 }
    ensures exact { IfOk result (λ t. t ≡ tallies.tally_of (serial_order (length world.now.given) world.now.world) world.now.world.done world.now.world.journal) }
    ensures low { IfOk result (λ t. tallies.IsAtMost (4194304 * 4294967295) t) }
{
    let _cores = world.cores();
    let journal = world.journal();
    let done = world.done();
    let steps = serial(alloc, world)?;
    Ok(tally_of(steps.as_slice(), done, journal))
}

/// The tally of all blocks.
pub fn tally_of_blocks(alloc: Global, system: &System, script: &Script) -> Result<Tally, AllocError>
    requires { system.now.given ≡ todo_of script.now }
    ensures { IfOk result (λ t. t ≡ drills.tally_of_blocks script.now.cores system.now.worlds) }
{
    let _ops = script.ops();
    let count = system.blocks();
    let mut tally = Tally::empty();
    let mut block = 0;
    while block < count {
        tally = tally.plus(tally_of_block(alloc, system.world(block))?);
        block += 1;
    }
    Ok(tally)
}
