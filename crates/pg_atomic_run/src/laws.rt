//! Laws of the definitions that the contracts of this crate cite.

ghost use Rattle.std.specs.Prelude.{◌≡◌, ℕ, [], ◌∷◌, codes};
ghost use Rattle.pg_perm.specs.declared.kinds.Event.TheVariants as event;
ghost use Rattle.pg_perm.specs.declared.kinds.Op.TheVariants as op;
ghost use Rattle.pg_perm.specs.declared.step.Step.TheVariants as step;
ghost use Rattle.pg_samples.specs.Drafts.{msi};
ghost use Rattle.pg_perm.specs.declared.draft.Draft.{Draft};
ghost use Rattle.pg_perm.specs.Drafts.{IsWellFormed};
ghost use Rattle.pg_shape.specs.Shaped.{IsShaped};
ghost use Rattle.pg_script.specs.Scripts.{Operations, IsWithin};
ghost use Rattle.pg_atomic.specs.Steps.{IsRun};
ghost use Rattle.pg_atomic_run.specs.Histories.{block_steps, histories, ops_on};
ghost use Rattle.pg_atomic_run.specs.Worked.{loads_of_three, worked_script};

/// The steps of which the histories of a script's blocks are written are runs of the atomic machine.
pub fn histories_are_runs()
    ensures { (d : Draft) (s : Operations) (b : ℕ) → IsWellFormed d → IsShaped d → IsWithin s → IsRun d s.cores (block_steps d s b) }
{}

/// The operations on a block are those of its number, each with its core, in the order of their lines. Of a small script: its steps on each block of MSI, and
/// its histories. What a core has it loads again without a transaction.
pub fn worked_scripts()
    ensures first { ops_on worked_script.ops 0 ≡ (0, op.Store 5) ∷ (1, op.Load) ∷ (1, op.Load) ∷ [] }
    ensures second { ops_on worked_script.ops 1 ≡ (1, op.Load) ∷ (0, op.Evict) ∷ (1, op.Evict) ∷ [] }
    ensures third { ops_on worked_script.ops 2 ≡ [] }
    ensures steps_on_first { block_steps msi worked_script 0
        ≡ step.Txn 0 event.Store ∷ step.Store 0 5 ∷ step.Txn 1 event.Load ∷ step.Load 1 5 ∷ step.Load 1 5 ∷ [] }
    ensures steps_on_second { block_steps msi worked_script 1
        ≡ step.Txn 1 event.Load ∷ step.Load 1 0 ∷ step.Txn 1 event.Evict ∷ [] }
    ensures text { histories msi worked_script
        ≡ codes "block 0\ntxn 1 c0 store\nacc 1 c0 store 5\ntxn 2 c1 load\nacc 2 c1 load 5\nacc 2 c1 load 5\nblock 1\ntxn 1 c1 load\nacc 1 c1 load 0\ntxn 2 c1 evict\nblock 2\nend\n" }
    ensures three { block_steps msi loads_of_three 0
        ≡ step.Txn 0 event.Load ∷ step.Load 0 0 ∷ step.Txn 1 event.Load ∷ step.Load 1 0 ∷ step.Txn 2 event.Load ∷ step.Load 2 0
        ∷ step.Load 0 0 ∷ step.Load 1 0 ∷ step.Load 2 0 ∷ [] }
{}
