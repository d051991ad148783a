//! Laws on worlds.

ghost use Rattle.std.specs.Prelude.{ℕ, ◌≡◌, List, length};
ghost use Rattle.pg_perm.specs.declared.kinds.Op.{Op};
ghost use Rattle.pg_perm.specs.declared.draft.Draft.{Draft};
ghost use Rattle.pg_perm.specs.Drafts.{IsWellFormed};
ghost use Rattle.pg_shape.specs.Shaped.{IsShaped};
ghost use Rattle.pg_controllers.specs.Worlds.{World};
ghost use Rattle.pg_controllers.specs.Runs.{opening};
ghost use Rattle.pg_orderly.specs.Orderly.{IsOrderly};
ghost use Rattle.pg_orderly.specs.Worked.{Tags, DataDue, BusyDirectory};

#[tactic(auto, using(crate::proofs::Rows::answers, crate::proofs::Keeping::catches_up, crate::proofs::Postponed::postponed, crate::proofs::Answered::answers_kept, crate::proofs::Handled::handling_kept, crate::proofs::Serving::serves_kept, crate::proofs::Effects::stable_answers, crate::proofs::Filled::fills_kept, crate::proofs::Mail::post_core, crate::proofs::TagReplay::tag_replays, crate::proofs::Served::serves_so, crate::proofs::Invalidated::invalidates_kept, crate::proofs::Filling::ready, crate::proofs::MailIs::write_mail_is))]
/// The opening is orderly.
pub fn openings_are_orderly()
    ensures { (d : Draft) (given : List (List Op)) → IsWellFormed d → IsShaped d → IsOrderly d (length given) (opening d given) (λ c. record { seen = 0; last = 0 }) }
{}

/// What is said of small worlds, as a person works it out.
pub fn worked_claims()
    ensures tags { Tags }
    ensures data { DataDue }
    ensures busy { BusyDirectory }
{}
