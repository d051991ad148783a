ghost use Rattle.std.specs.Prelude.{◌≡◌, ◌==◌, ◌<◌, IfOk, map, filter};
ghost use Rattle.pg_run.specs.Systems as systems;

use crate::counted::Counted;
use pg_perm::Op;
use pg_script::{Script, ScriptOp};
use pg_table::Tables;
use pg_world::{Todo, World};
use std::alloc::{AllocError, Global};
use std::sync::Arc;

/// The lines of a script that are on a block.
fn lines_on(alloc: Global, script: &Script, block: u32) -> Result<Vec<ScriptOp>, AllocError>
    ensures { IfOk result (λ lines. lines.items ≡ filter (λ o. o.block == block) script.now.ops) }
{
    script
        .ops()
        .iter()
        .copied()
        .filter(|line| line.block == block)
        .collect(alloc)
}

/// The operations of a core in lines that are all on one block.
fn operations_of(alloc: Global, lines: &[ScriptOp], core: u32) -> Result<Vec<Op>, AllocError>
    ensures { IfOk result (λ ops. ops.items ≡ map (λ o. o.op) (filter (λ o. o.core == core) lines.now)) }
{
    lines
        .iter()
        .filter(|line| line.core == core)
        .map(|line| line.op)
        .collect(alloc)
}

/// The operations of each core on a block. The lines on it are found first, so that each core goes over these alone.
fn todo_on(alloc: Global, script: &Script, block: u32) -> Result<Todo, AllocError>
    ensures { IfOk result (λ todo. todo ≡ systems.todo_on script.now block) }
{
    let cores = script.cores();
    let lines = lines_on(alloc, script, block)?;
    let mut todo = Todo::new(alloc);
    let mut core = 0;
    while core < cores {
        let ops = operations_of(alloc, &lines, core)?;
        todo.add_core(ops)?;
        core += 1;
    }
    Ok(todo)
}

#[tactic(auto, using(crate::proofs::Openings::few_operations, crate::proofs::Openings::todo_length))]
/// A block in which nothing has happened, with its operations to do.
fn opened(
    alloc: Global,
    tables: Arc<Tables>,
    script: &Script,
    block: u32,
) -> Result<Counted, AllocError>
    ensures { IfOk result (λ w. systems.IsOpened tables.value script.now block w) }
{
    let _ops = script.ops();
    let todo = todo_on(alloc, script, block)?;
    let world = World::make(alloc, tables, todo)?;
    Ok(Counted::new(world))
}

#[tactic(auto, using(crate::proofs::Openings::none_opened))]
/// All blocks of a script, in which nothing has happened.
pub fn all_opened(
    alloc: Global,
    tables: &Arc<Tables>,
    script: &Script,
) -> Result<Vec<Counted>, AllocError>
    ensures { IfOk result (λ blocks. systems.AreOpened tables.now.value script.now script.now.blocks blocks.items) }
{
    let count = script.blocks();
    let mut blocks = Vec::with_capacity(alloc, count as usize)?;
    let mut block = 0;
    while block < count {
        let world = opened(alloc, tables.clone()?, script, block)?;
        blocks.push_reserved(world);
        block += 1;
    }
    Ok(blocks)
}
