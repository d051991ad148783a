//! Laws on the run that a world shows.

ghost use Rattle.std.specs.Prelude.{ℕ, ◌≡◌, ◌<◌, ◌++◌, List, [], length, get_or, map};
ghost use Rattle.pg_refined.specs.Operations.{MadeOf, pending_ops};
ghost use Rattle.pg_messages.specs.declared.messages.WorldEvent.{WorldEvent};
ghost use Rattle.pg_controllers.specs.Worlds.{Picks};
ghost use Rattle.pg_controllers.specs.Runs.{AreEnabled, replay};
ghost use Rattle.pg_perm.specs.declared.kinds.Op.{Op};
ghost use Rattle.pg_perm.specs.declared.draft.Draft.{Draft};
ghost use Rattle.pg_perm.specs.Drafts.{IsWellFormed};
ghost use Rattle.pg_shape.specs.Shaped.{IsShaped};
ghost use Rattle.pg_atomic.specs.Steps.{IsRun};
ghost use Rattle.pg_controllers.specs.Worlds.{World, core};
ghost use Rattle.pg_controllers.specs.Runs.{opening};
ghost use Rattle.pg_orderly.specs.Orderly.{Mark, IsOrderly};
ghost use Rattle.pg_serial.specs.Serial.{serial_of, accesses_of, made_by};
ghost use Rattle.pg_serial.specs.Faithful.{IsFaithful};
ghost use Rattle.pg_refined.specs.Shown.{HasFlags, accesses, entry_of, shown};
ghost use Rattle.pg_refined.specs.Worked.{TwoCores, ThreeCores, Evicts, Claims};

#[tactic(auto, using(crate::proofs::Hits::hit_load_told, crate::proofs::Hits::hit_store_told, crate::proofs::Asks::asked_told, crate::proofs::Asks::wrote_told, crate::proofs::Ordered::order_told, crate::proofs::Ordered::flags_more, crate::proofs::Answers::answers_told, crate::proofs::Parts::postponed_told, crate::proofs::Parts::retired_told, crate::proofs::Fills::fill_load_told, crate::proofs::Counts::upgrade_told, crate::proofs::Late::late_told, crate::proofs::Late::came_first, crate::proofs::Serves::serves_told, crate::proofs::Records::filling_of, crate::proofs::Slots::orders, crate::proofs::Taken::taken_moved, crate::proofs::Issues::ask_row, crate::proofs::Whole::acked_told))]
/// The order of a faithful world with its accesses placed in it is a run of the atomic machine, in which each core's accesses stand in its order.
pub fn worlds_are_runs()
    ensures { (d : Draft) (n : ℕ) (w : World) (m : ℕ → Mark) → IsWellFormed d → IsShaped d → IsOrderly d n w m → HasFlags d w → IsFaithful d n (shown d w m)
        → IsRun d n (serial_of n (map entry_of w.order) (accesses w.done))
        × ((c : ℕ) → c < n → accesses_of c (serial_of n (map entry_of w.order) (accesses w.done)) ≡ made_by c (accesses w.done)) }
{}

/// The opening is faithful.
pub fn openings_are_faithful()
    ensures { (d : Draft) (given : List (List Op)) → IsWellFormed d → IsShaped d → IsFaithful d (length given) (shown d (opening d given) (λ c. record { seen = 0; last = 0 })) }
{}

/// The histories of small worlds, and what their lines and messages show, as a person works them out.
pub fn worked_histories()
    ensures two_cores { TwoCores }
    ensures three_cores { ThreeCores }
    ensures evicts { Evicts }
    ensures claims { Claims }
{}
