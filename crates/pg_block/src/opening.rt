ghost use Rattle.std.specs.Prelude.{◌≡◌, ◌<◌, ◌≤◌, length, IfOk};
ghost use Rattle.pg_block.specs.Openings as openings;

use crate::block::Block;
use crate::program::Program;
use pg_cache::Line;
use pg_dir::Home;
use pg_queue::Wires;
use pg_table::Tables;
use std::alloc::{AllocError, Global};
use std::sync::Arc;

#[tactic(auto, using(crate::proofs::Openings::made_line))]
fn new_line(alloc: Global, t: &Tables, core: u32, cores: u32) -> Result<Line, AllocError>
    requires few { cores ≤ 64 }
    requires core { core < cores }
    ensures { IfOk result (λ l. l ≡ openings.new_line t.now cores core) }
{
    let _table = t.cache();
    let line = Line::make(alloc, t, core, cores)?;
    Ok(line)
}

#[tactic(auto, using(crate::proofs::Openings::lines_last, crate::proofs::Openings::lines_length))]
fn new_lines(alloc: Global, t: &Tables, cores: u32) -> Result<Vec<Line>, AllocError>
    requires { cores ≤ 64 }
    ensures { IfOk result (λ lines. lines.items ≡ openings.new_lines t.now cores 0 cores) }
{
    let mut lines = Vec::with_capacity(alloc, cores as usize)?;
    let mut i = 0;
    while i < cores {
        let line = new_line(alloc, t, i, cores)?;
        lines.push_reserved(line);
        i += 1;
    }
    Ok(lines)
}

impl Block {
    /// A block in which nothing has happened yet, of 1 to 64 cores that have up to 16,384 operations to do. It takes all the memory that it will ever need.
    pub fn make(
        alloc: Global,
        tables: Arc<Tables>,
        programs: Vec<Program>,
        ops: usize,
    ) -> Result<Block, AllocError>
        requires few { length programs.items ≤ 64 }
        requires short { ops ≤ 16384 }
        ensures tables { IfOk result (λ b. b.tables ≡ tables.value) }
        ensures programs { IfOk result (λ b. b.programs ≡ programs.items) }
        ensures new { IfOk result (λ b. openings.IsNew b) }
        ensures limits { IfOk result (λ b. b.limits ≡ openings.limits_for ops (length programs.items)) }
    {
        let cores = programs.len();
        let lines = new_lines(alloc, &tables, cores as u32)?;
        let wires = Wires::make(alloc, cores as u32)?;
        let home = Home::make(&tables, cores as u32);
        let order = Vec::with_capacity(alloc, ops + 1)?;
        let done = Vec::with_capacity(alloc, ops + 1)?;
        let journal = Vec::with_capacity(alloc, ops * (2 * cores + 2))?;
        Ok(Block {
            tables,
            lines,
            programs,
            wires,
            home,
            order,
            done,
            journal,
        })
    }
}
