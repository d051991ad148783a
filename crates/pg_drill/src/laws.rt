//! The laws on drills.

ghost use Rattle.std.specs.Prelude.{◌≡◌, ℕ, [], ◌∷◌, codes};
ghost use Rattle.pg_perm.specs.declared.kinds.Mode.{Mode};
ghost use Rattle.pg_perm.specs.declared.kinds.Mode.TheVariants as mode;
ghost use Rattle.pg_script.specs.Drills.{IsDrill, drill_operations};
ghost use Rattle.pg_drill.specs.Drills.{TellsDrill, drill_text, tally_of_blocks};
ghost use Rattle.pg_drill.specs.Worked.{first_block, second_block};

/// The summary of a drill, of whatever seed and in both modes, is the tally of histories that are runs of the atomic machine, one of each block, in which
/// each core makes the accesses of all its operations.
pub fn drills_are_atomic_runs()
    ensures { (m : Mode) (seed cores blocks ops : ℕ) → IsDrill cores blocks ops
        → TellsDrill m seed cores blocks ops (drill_operations seed cores blocks ops) (drill_text m seed cores blocks ops) }
{}

/// The tally of two blocks that were written down by hand.
pub fn worked_blocks()
    ensures { tally_of_blocks 2 (first_block ∷ second_block ∷ []) ≡ record { txns = 4; stale = 1; loads = 3; late = 1; stores = 3; events = 20; sum = 11 } }
{}

/// Small drills in both modes, by the definition alone: a core that stores 1 and loads it, and a core that stores.
pub fn worked_drills()
    ensures stalling { drill_text mode.Stall 1 1 1 2 ≡ codes "drill seed 1 cores 1 blocks 1 ops 2\ntxns 1\nstale 0\nloads 1\nlate 0\nstores 1\nevents 4\nsum 1\nend\n" }
    ensures deferring { drill_text mode.Defer 1 1 1 2 ≡ codes "drill seed 1 cores 1 blocks 1 ops 2\ntxns 1\nstale 0\nloads 1\nlate 0\nstores 1\nevents 4\nsum 1\nend\n" }
    ensures one_store { drill_text mode.Defer 642502562 1 1 1 ≡ codes "drill seed 642502562 cores 1 blocks 1 ops 1\ntxns 1\nstale 0\nloads 0\nlate 0\nstores 1\nevents 3\nsum 0\nend\n" }
{}
