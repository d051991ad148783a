ghost use Rattle.std.specs.Prelude.{◌≡◌, IfOk};
ghost use Rattle.pg_samples.specs.Drafts as drafts;
ghost use Rattle.pg_run.specs.Systems.{todo_of};
ghost use Rattle.pg_controller_run.specs.Histories.{final_worlds};
ghost use Rattle.pg_script.specs.Drills.{IsDrill, drill_operations};
ghost use Rattle.pg_drill.specs.Drills as drills;

use crate::counting::tally_of_blocks;
use crate::protocol::moesi;
use pg_infer::generate;
use pg_perm::Mode;
use pg_run::System;
use pg_script::{Script, drill_script};
use pg_tally::summary_text;
use std::alloc::{AllocError, Global};
use std::sync::Arc;

/// The blocks of a script on the controllers of MOESI, at the end of the schedule of the seed.
fn drained(alloc: Global, mode: Mode, seed: u64, script: &Script) -> Result<System, AllocError>
    ensures given { IfOk result (λ s. s.given ≡ todo_of script.now) }
    ensures worlds { IfOk result (λ s. s.worlds ≡ final_worlds drafts.moesi mode seed script.now) }
{
    let protocol = moesi(alloc)?;
    let _draft = protocol.draft();
    let _ops = script.ops();
    let tables = Arc::new(alloc, generate(alloc, &protocol, mode)?)?;
    let mut system = System::make(alloc, tables, script)?;
    system.drain(seed);
    Ok(system)
}

/// Runs the script of a seed on the controllers that are generated for MOESI, on the schedule of the same seed, and gives a summary of what happened.
///
/// The text has a line that names the drill, then how many transactions and stale evicts there were, how many loads, how many of them were late, how many
/// stores and how many events, and the sum of the words that the loads gave, and last the line `end`. docs/SCRIPTS.md says what each number counts. Its
/// clause `atomic` says of what: of histories that are runs of the atomic machine, with all accesses of the script.
pub fn drill(
    alloc: Global,
    mode: Mode,
    seed: u64,
    cores: u32,
    blocks: u32,
    ops: u32,
) -> Result<Vec<u8>, AllocError>
    requires { IsDrill cores blocks ops }
    ensures exact { IfOk result (λ text. text.items ≡ drills.drill_text mode seed cores blocks ops) }
    ensures atomic { IfOk result (λ text. drills.TellsDrill mode seed cores blocks ops (drill_operations seed cores blocks ops) text.items) }
{
    let script = drill_script(alloc, seed, cores, blocks, ops)?;
    let system = drained(alloc, mode, seed, &script)?;
    let tally = tally_of_blocks(alloc, &system, &script)?;
    summary_text(alloc, seed, cores, blocks, ops, &tally)
}
