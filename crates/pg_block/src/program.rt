ghost use Rattle.std.specs.Prelude.{◌≡◌, ◌<◌, length, slice_get, drop, [], true, false, nat_lt, ℕ, List};

use pg_perm::Op;
use std::marker::Model;

/// The operations of a core, and how many of them it has begun.
#[derive(Drop)]
pub struct Program {
    ops: Vec<Op>,
    begun: usize,
}

impl Model for Program {
    ghost use Rattle.std.specs.Prelude.{drop, length, ◌≤◌};
    ghost use Rattle.pg_block.specs.Blocks.{Program};

    ghost Value = { Program };

    ghost view = { λ p. record { given = p.ops.items; left = drop p.begun p.ops.items } };

    ghost invariant = { λ p. p.begun ≤ length p.ops.items };
}

impl Program {
    /// None of them is begun.
    pub fn new(ops: Vec<Op>) -> Program
        ensures { result ≡ record { given = ops.items; left = ops.items } }
    {
        Program { ops, begun: 0 }
    }

    /// How many operations there are, those that are begun included.
    pub fn len(&self) -> usize
        ensures { result ≡ length self.now.given }
    {
        self.ops.len()
    }

    pub fn has_next(&self) -> bool
        ensures { result ≡ nat_lt 0 (length self.now.left) }
    {
        self.begun < self.ops.len()
    }

    /// The next one, or none where all are begun.
    pub fn next(&self) -> Option<Op>
        ensures { result ≡ slice_get self.now.left 0 }
    {
        self.ops.get(self.begun).copied()
    }

    #[tactic(auto, using(crate::proofs::Programs::drop_next))]
    pub fn advance(&mut self)
        requires { 0 < length self.old.left }
        ensures { self.new ≡ record self.old { left = drop 1 self.old.left } }
    {
        self.begun += 1;
    }
}
