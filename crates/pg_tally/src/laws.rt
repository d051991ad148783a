//! Laws of the definitions of this crate, and tallies that were made by hand.

ghost use Rattle.std.specs.Prelude.{◌≡◌, ◌+◌, ◌++◌, ℕ, List, length, codes};
ghost use Rattle.pg_perm.specs.declared.step.Step.{Step};
ghost use Rattle.pg_messages.specs.declared.messages.DoneEntry.{DoneEntry};
ghost use Rattle.pg_messages.specs.declared.messages.WorldEvent.{WorldEvent};
ghost use Rattle.pg_tally.specs.Tallies.{tally_of, plus};
ghost use Rattle.pg_tally.specs.Summaries.{summary};
ghost use Rattle.pg_tally.specs.Worked as worked;

/// Each step of a history is a transaction, a stale evict, a load or a store, and counts once.
pub fn each_step_is_counted_once()
    ensures { (steps : List Step) (done : List DoneEntry) (journal : List (ℕ × WorldEvent)) → let t = tally_of steps done journal in t.txns + t.stale + t.loads + t.stores ≡ length steps }
{}

/// The tally of two lists, one after the other, is that of both together.
pub fn tallies_add_up()
    ensures { (s t : List Step) (d e : List DoneEntry) (j k : List (ℕ × WorldEvent)) → tally_of (s ++ t) (d ++ e) (j ++ k) ≡ plus (tally_of s d j) (tally_of t e k) }
{}

/// Tallies of small histories. A store whose line held nothing any more is not counted as late.
pub fn worked_tallies()
    ensures late_load { tally_of worked.late_load_steps worked.late_load_done worked.late_load_journal
        ≡ record { txns = 2; stale = 0; loads = 1; late = 1; stores = 1; events = 8; sum = 0 } }
    ensures stale_evict { tally_of worked.stale_evict_steps worked.stale_evict_done worked.stale_evict_journal
        ≡ record { txns = 3; stale = 1; loads = 2; late = 0; stores = 2; events = 10; sum = 11 } }
{}

/// The summary of a drill of two operations.
pub fn worked_summaries()
    ensures two_operations { summary 1 1 1 2 (record { txns = 1; stale = 0; loads = 1; late = 0; stores = 1; events = 4; sum = 1 })
        ≡ codes "drill seed 1 cores 1 blocks 1 ops 2\ntxns 1\nstale 0\nloads 1\nlate 0\nstores 1\nevents 4\nsum 1\nend\n" }
    ensures large { summary 18446744073709551615 32 64 16384 (record { txns = 7; stale = 6; loads = 50; late = 4; stores = 30; events = 200; sum = 100 })
        ≡ codes "drill seed 18446744073709551615 cores 32 blocks 64 ops 16384\ntxns 7\nstale 6\nloads 50\nlate 4\nstores 30\nevents 200\nsum 100\nend\n" }
{}
