//! What the invariant says of the worlds of worked runs.

ghost use Rattle.pg_worked.specs.Runs.{LateLoad, LoadBefore, LoadBehind, EvictAfterShare, StaleEvict};
ghost use Rattle.pg_worked.specs.Refused.{Refusals};

/// Each world of these runs is orderly, with the marks that a person works out.
pub fn worked_runs_are_orderly()
    ensures late_load { LateLoad }
    ensures load_before { LoadBefore }
    ensures load_behind { LoadBehind }
    ensures evict_after_share { EvictAfterShare }
    ensures stale_evict { StaleEvict }
{}

/// Worlds with one thing wrong aren't orderly with the marks of the worlds that they are like.
pub fn worked_refusals()
    ensures { Refusals }
{}
