//! What the definitions of this crate give.

ghost use Rattle.std.specs.Prelude.{◌≡◌, ℕ, ◌<◌, ◌^◌};
ghost use Rattle.pg_sched.specs.Picks.{next_state, pick_of};

/// Picks of the seeds 0 and 1, and how large a pick may be. The low digits of the multiplier and of the increment show only in later picks than the first.
pub fn first_picks()
    ensures zero { pick_of (next_state 0) ≡ 167951807 }
    ensures one { pick_of (next_state 1) ≡ 908834774 }
    ensures third { pick_of (next_state (next_state (next_state 1))) ≡ 1392341196 }
    ensures bound { (x : ℕ) → pick_of (next_state x) < 2 ^ 31 }
{}
