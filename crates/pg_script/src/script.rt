ghost use Rattle.std.specs.Prelude.{◌≡◌, IfOk, map, filter};
ghost use Rattle.pg_script.specs.Scripts as scripts;

use pg_perm::{Op, Sequence};
use std::alloc::{AllocError, Global};
use std::marker::Model;

/// Operations of one core on one block, in the order in which the core asks for them.
pub type Ops = Sequence<Op>;

pub type ScriptOps = Sequence<ScriptOp>;

/// An operation, of a core on a block. Both are numbered from 0.
#[derive(Clone, Copy, Debug, PartialEq, Eq)]
pub struct ScriptOp {
    pub core: u32,
    pub block: u32,
    pub op: Op,
}

/// How many cores and blocks there are, and the operations in the order of their lines.
///
/// There are 1 to 32 cores, 1 to 64 blocks, and at most 16,384 operations, each of a core and on a block that there are.
#[derive(Debug, Drop)]
pub struct Script {
    cores: u32,
    blocks: u32,
    ops: ScriptOps,
}

impl Model for Script {
    ghost use Rattle.pg_script.specs.Scripts.{Operations, IsWithin};

    ghost Value = { Operations };

    ghost view = { λ s. record { cores = s.cores; blocks = s.blocks; ops = s.ops } };

    ghost invariant = { λ s. IsWithin (record { cores = s.cores; blocks = s.blocks; ops = s.ops }) };
}

impl Script {
    /// The script that says this, which is within the bounds.
    pub(crate) fn new(cores: u32, blocks: u32, ops: ScriptOps) -> Script
        requires { scripts.IsWithin (record { cores = cores; blocks = blocks; ops = ops }) }
        ensures { result ≡ record { cores = cores; blocks = blocks; ops = ops } }
    {
        Script { cores, blocks, ops }
    }

    pub fn cores(&self) -> u32
        ensures { result ≡ self.now.cores }
    {
        self.cores
    }

    pub fn blocks(&self) -> u32
        ensures { result ≡ self.now.blocks }
    {
        self.blocks
    }

    /// The operations, in the order of their lines.
    pub fn ops(&self) -> &[ScriptOp]
        ensures exact { result.now ≡ self.now.ops }
        ensures within { scripts.IsWithin self.now }
    {
        self.ops.as_slice()
    }
}

impl ScriptOp {
    fn is_on(&self, core: u32, block: u32) -> bool
        ensures { result ≡ scripts.is_on core block self.now }
    {
        self.core == core && self.block == block
    }
}

fn ops_on(alloc: Global, ops: &[ScriptOp], core: u32, block: u32) -> Result<Vec<Op>, AllocError>
    ensures { IfOk result (λ v. v.items ≡ map (λ o. o.op) (filter (scripts.is_on core block) ops.now)) }
{
    ops.iter()
        .filter(|op| op.is_on(core, block))
        .map(|op| op.op)
        .collect(alloc)
}

/// The operations of a core on a block, in the order of their lines. There are none of a core or a block that the script doesn't have.
pub fn on_block(alloc: Global, script: &Script, core: u32, block: u32) -> Result<Ops, AllocError>
    ensures { IfOk result (λ ops. ops ≡ scripts.on_block script.now core block) }
{
    Ok(Sequence::from(ops_on(alloc, script.ops(), core, block)?))
}
