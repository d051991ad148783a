ghost use Rattle.std.specs.Prelude.{◌≡◌, ◌<◌, ◌++◌, length, IfOk};
ghost use Rattle.pg_history.specs.HistoryText as told;
ghost use Rattle.pg_controller_run.specs.Histories as histories;

use crate::history::serial;
use pg_history::write_history;
use pg_infer::generate;
use pg_perm::Mode;
use pg_run::System;
use pg_script::Script;
use pg_shape::Protocol;
use std::alloc::{AllocError, Global};
use std::sync::Arc;

#[tactic(auto, using(crate::proofs::Texts::steps_are))]
/// Puts the text of a block's history last.
fn put_history(
    alloc: Global,
    text: &mut Vec<u8>,
    system: &System,
    block: u32,
) -> Result<(), AllocError>
    requires { block < length system.now.worlds }
    ensures { IfOk result (λ _. text.new.items ≡ text.old.items ++ told.block_text block (histories.serial_steps system.now block)) }
{
    let steps = serial(alloc, system.world(block))?;
    write_history(text, block, &steps)
}

/// The text of the histories of all blocks.
fn histories_text(alloc: Global, system: &System) -> Result<Vec<u8>, AllocError>
    ensures { IfOk result (λ text. text.items ≡ told.histories_text (histories.serial_steps system.now) (length system.now.worlds)) }
{
    let mut text = Vec::new(alloc);
    let count = system.blocks();
    let mut block = 0;
    while block < count {
        put_history(alloc, &mut text, system, block)?;
        block += 1;
    }
    text.extend_from_slice(b"end\n")?;
    Ok(text)
}

/// Runs a script on the controllers that are generated for the protocol, and gives the histories of its blocks.
///
/// Each core has the operations of its lines to do, block by block in the order of the lines. All happens on the schedule of the seed (docs/SCRIPTS.md)
/// until nothing is left to do. The text has the history of each block by its number, in serial order, and ends with the line `end`. Its clause `atomic`
/// says what a history is: a run of the atomic machine, in which each load gives the word of the last store before it and each core makes the accesses of
/// all its operations in their order.
pub fn controller_run(
    alloc: Global,
    protocol: &Protocol,
    mode: Mode,
    seed: u64,
    script: &Script,
) -> Result<Vec<u8>, AllocError>
    ensures exact { IfOk result (λ text. text.items ≡ histories.histories protocol.now mode seed script.now) }
    ensures atomic { IfOk result (λ text. histories.TellsHistories protocol.now script.now text.items) }
{
    let _draft = protocol.draft();
    let _ops = script.ops();
    let tables = Arc::new(alloc, generate(alloc, protocol, mode)?)?;
    let mut system = System::make(alloc, tables, script)?;
    system.drain(seed);
    histories_text(alloc, &system)
}
