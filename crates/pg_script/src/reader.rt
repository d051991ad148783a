ghost use Rattle.std.specs.Prelude.{◌≡◌, IfOk, IsTrue};
ghost use Rattle.pg_faults.specs.Answers.{Judges};
ghost use Rattle.pg_script.specs.Scripts.{IsWithin};
ghost use Rattle.pg_script.specs.ScriptFaults as faults;
ghost use Rattle.pg_script.specs.Texts.{judgement};

use crate::script::{Script, ScriptOp, ScriptOps};
use crate::statement::{OpForm, Statement};
use pg_faults::LineError;
use pg_perm::{Op, Rule, Sequence};
use std::alloc::{AllocError, Global};
use std::marker::Model;

const CORE_LIMIT: u128 = 32;

const BLOCK_LIMIT: u128 = 64;

const OP_LIMIT: usize = 16384;

/// The lines of a script that were read. Contracts see what they say.
#[derive(Drop)]
pub struct Reader {
    cores: u32,
    blocks: u32,
    ops: ScriptOps,
}

impl Model for Reader {
    ghost use Rattle.pg_script.specs.Scripts.{Operations};

    ghost Value = { Operations };

    ghost view = { λ r. record { cores = r.cores; blocks = r.blocks; ops = r.ops } };
}

fn is_in_range(most: u128, number: u128) -> bool
    ensures { result ≡ faults.is_in_range most number }
{
    number >= 1 && number <= most
}

fn op_of(form: OpForm) -> Op
    requires { IsTrue (faults.has_small_value form) }
    ensures { result ≡ faults.op_of form }
{
    match form {
        OpForm::Load => Op::Load,
        OpForm::Store(value) => Op::Store(value as u32),
        OpForm::Evict => Op::Evict,
    }
}

impl Reader {
    /// No lines.
    pub fn new(alloc: Global) -> Reader
        ensures { result ≡ faults.no_operations }
    {
        Reader {
            cores: 0,
            blocks: 0,
            ops: Sequence::new(alloc),
        }
    }

    /// Whether the numbers of the next line are within their bounds.
    fn allows(&self, statement: Statement) -> bool
        ensures { result ≡ faults.is_bounded self.now statement }
    {
        match statement {
            Statement::Cores(count) => is_in_range(CORE_LIMIT, count),
            Statement::Blocks(count) => is_in_range(BLOCK_LIMIT, count),
            Statement::Op { core, block, form } => {
                core < u128::from(self.cores)
                    && block < u128::from(self.blocks)
                    && form.has_small_value()
            }
            Statement::Done => true,
        }
    }

    /// Takes in what the next line says.
    fn with(self, statement: Statement) -> Result<Reader, AllocError>
        requires { IsTrue (faults.is_bounded self statement) }
        ensures { IfOk result (λ r. r ≡ faults.with_statement self statement) }
    {
        let mut reader = self;
        match statement {
            Statement::Cores(count) => reader.cores = count as u32,
            Statement::Blocks(count) => reader.blocks = count as u32,
            Statement::Op { core, block, form } => reader.ops.push(ScriptOp {
                core: core as u32,
                block: block as u32,
                op: op_of(form),
            })?,
            Statement::Done => {}
        }
        Ok(reader)
    }

    /// Takes in what the next line says, or tells which of the rules C1 to C3 it breaks first.
    pub fn with_line(self, statement: Option<Statement>) -> Result<Reader, LineError<Rule>>
        ensures { Judges result (judgement self statement) }
    {
        let Some(statement) = statement else {
            return Err(LineError::Breaks(Rule::C1));
        };
        if !self.allows(statement) {
            return Err(LineError::Breaks(Rule::C2));
        }
        if statement.is_op() && self.ops.len() == OP_LIMIT {
            return Err(LineError::Breaks(Rule::C3));
        }
        Ok(self.with(statement)?)
    }

    pub fn into_script(self) -> Script
        requires { IsWithin self }
        ensures { result ≡ self }
    {
        let Reader { cores, blocks, ops } = self;
        Script::new(cores, blocks, ops)
    }
}
