ghost use Rattle.std.specs.Prelude.{◌≡◌, ◌++◌, ◌∷◌, ◌≤◌, [], length, OnOk, OnErr};
ghost use Rattle.pg_block.specs.Blocks.{given_of};
ghost use Rattle.pg_world.specs.Kept.{operation_count, AreWhole};

use pg_block::Program;
use pg_perm::Op;
use std::alloc::{AllocError, Global};
use std::marker::Model;

/// What the cores of a block have to do: for each core, by number, its operations in order.
#[derive(Drop)]
pub struct Todo {
    programs: Vec<Program>,
}

impl Model for Todo {
    ghost use Rattle.std.specs.Prelude.{List};
    ghost use Rattle.pg_perm.specs.declared.kinds.Op.{Op};
    ghost use Rattle.pg_block.specs.Blocks.{given_of};
    ghost use Rattle.pg_world.specs.Kept.{AreWhole};

    ghost Value = { List (List Op) };

    ghost view = { λ t. given_of t.programs.items };

    ghost invariant = { λ t. AreWhole t.programs.items };
}

impl Todo {
    /// No cores yet.
    pub fn new(alloc: Global) -> Todo
        ensures { result ≡ [] }
    {
        Todo {
            programs: Vec::new(alloc),
        }
    }

    #[tactic(auto, using(crate::proofs::Made::given_last, crate::proofs::Made::whole_last))]
    /// One core more, with its operations. Where memory runs out, nothing is added.
    pub fn add_core(&mut self, ops: Vec<Op>) -> Result<(), AllocError>
        ensures added { OnOk result (self.new ≡ self.old ++ ops.items ∷ []) }
        ensures refused { OnErr result (self.new ≡ self.old) }
    {
        self.programs.push(Program::new(ops))?;
        Ok(())
    }

    #[tactic(auto, using(crate::proofs::Made::given_length))]
    /// How many cores there are.
    pub fn cores(&self) -> usize
        ensures { result ≡ length self.now }
    {
        self.programs.len()
    }

    #[tactic(auto, using(crate::proofs::Made::counted))]
    /// How many operations there are.
    pub fn operations(&self) -> usize
        requires { operation_count self.now ≤ 16384 }
        ensures { result ≡ operation_count self.now }
    {
        let mut count = 0;
        let mut left = self.programs.as_slice();
        while let Some((program, rest)) = left.split_first() {
            count += program.len();
            left = rest;
        }
        count
    }

    /// The operations of the cores, of which none is begun.
    pub(crate) fn into_programs(self) -> Vec<Program>
        ensures given { given_of result.items ≡ self }
        ensures whole { AreWhole result.items }
    {
        let Todo { programs } = self;
        programs
    }
}
