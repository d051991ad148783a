ghost use Rattle.std.specs.Prelude.{◌≡◌, ◌≤◌, ◌++◌, true, ℕ, List, [], map, length, codes, IfOk};
ghost use Rattle.std.specs.List.{list_all};
ghost use Rattle.pg_perm.specs.declared.step.Step.{Step};
ghost use Rattle.pg_script.specs.Scripts.{is_inside};
ghost use Rattle.pg_atomic_run.specs.Histories as histories;
ghost use Rattle.pg_atomic_run.specs.Blocks as state;

use crate::block::Block;
use pg_history::write_history;
use pg_script::{Script, ScriptOp};
use pg_shape::Protocol;
use std::alloc::{AllocError, Global};

/// A machine for each block, on which nothing was done.
fn open_blocks(
    alloc: Global,
    protocol: &Protocol,
    cores: u32,
    blocks: u32,
) -> Result<Vec<Block>, AllocError>
    requires some { 1 ≤ cores }
    requires few { cores ≤ 64 }
    ensures many { IfOk result (λ opened. length opened.items ≡ blocks) }
    ensures open { IfOk result (λ opened. state.AreOpen protocol.now cores opened.items) }
{
    let mut opened = Vec::new(alloc);
    for _ in 0..blocks {
        opened.push(Block::new(alloc, protocol, cores)?)?;
    }
    Ok(opened)
}

/// Makes the operations one after another, each on its block.
fn perform_all(
    protocol: &Protocol,
    ops: &[ScriptOp],
    blocks: &mut Vec<Block>,
    cores: u32,
) -> Result<(), AllocError>
    requires reached { state.AreReached protocol.now cores blocks.old.items }
    requires inside { list_all (is_inside cores (length blocks.old.items)) ops.now ≡ true }
    ensures many { IfOk result (λ _. length blocks.new.items ≡ length blocks.old.items) }
    ensures taken { (all : ℕ → List Step) → state.AreStepsSoFar protocol.now all ops.now blocks.old.items → IfOk result (λ _. state.AreStepsSoFar protocol.now all [] blocks.new.items) }
{
    let mut left = ops;
    while let Some((op, rest)) = left.split_first() {
        blocks[op.block as usize].perform(protocol, op.core, op.op)?;
        left = rest;
    }
    Ok(())
}

/// The histories of the blocks, one after another.
fn texts(alloc: Global, blocks: &[Block]) -> Result<Vec<u8>, AllocError>
    requires { length blocks.now ≤ 64 }
    ensures { IfOk result (λ text. text.items ≡ state.texts_of 0 blocks.now ++ codes "end\n") }
{
    let mut text = Vec::new(alloc);
    let mut number = 0;
    let mut left = blocks;
    while let Some((block, rest)) = left.split_first() {
        write_history(&mut text, number, &block.steps)?;
        number += 1;
        left = rest;
    }
    text.extend_from_slice(b"end\n")?;
    Ok(text)
}

/// Runs a script on the atomic machine of the protocol, in the order of its lines, and gives the histories of its blocks.
///
/// A load or a store without the permission takes a transaction first, and an evict of a core that holds nothing no step. The text has the
/// history of each block by its number, and ends with the line `end`.
pub fn atomic_run(
    alloc: Global,
    protocol: &Protocol,
    script: &Script,
) -> Result<Vec<u8>, AllocError>
    ensures { IfOk result (λ text. text.items ≡ histories.histories protocol.now script.now) }
{
    let ops = script.ops();
    let mut blocks = open_blocks(alloc, protocol, script.cores(), script.blocks())?;
    perform_all(protocol, ops, &mut blocks, script.cores())?;
    texts(alloc, &blocks)
}
