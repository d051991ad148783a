//! The law on the histories of a run.

ghost use Rattle.std.specs.Prelude.{ℕ, ◌<◌};
ghost use Rattle.pg_perm.specs.declared.kinds.Mode.{Mode};
ghost use Rattle.pg_perm.specs.declared.draft.Draft.{Draft};
ghost use Rattle.pg_perm.specs.Drafts.{IsWellFormed};
ghost use Rattle.pg_shape.specs.Shaped.{IsShaped};
ghost use Rattle.pg_script.specs.Scripts.{Operations, IsWithin};
ghost use Rattle.pg_run.specs.Systems.{todo_on};
ghost use Rattle.pg_controller_run.specs.Histories.{IsAtomicHistory, TellsHistories, block_steps, histories};

/// The history of each block of a run, on whatever seed and in both modes, is a run of the atomic machine that makes the accesses of all operations; and
/// such histories are what the text tells.
pub fn histories_are_atomic_runs()
    ensures block { (d : Draft) (m : Mode) (seed b : ℕ) (s : Operations) → IsWellFormed d → IsShaped d → IsWithin s → b < s.blocks
        → IsAtomicHistory d (todo_on s b) (block_steps d m seed s b) }
    ensures text { (d : Draft) (m : Mode) (seed : ℕ) (s : Operations) → IsWellFormed d → IsShaped d → IsWithin s
        → TellsHistories d s (histories d m seed s) }
{}
