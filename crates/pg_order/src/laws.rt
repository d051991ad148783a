//! Laws on the order of the directory.

ghost use Rattle.std.specs.Prelude.{ℕ, ◌≡◌, ◌<◌, ◌≤◌, ◌⊎◌, true, suc};
ghost use Rattle.pg_perm.specs.declared.draft.Draft.{Draft};
ghost use Rattle.pg_perm.specs.Drafts.{IsWellFormed};
ghost use Rattle.pg_shape.specs.Shaped.{IsShaped};
ghost use Rattle.pg_order.specs.Orders.{DirOrder, IsDirOrder, is_stale};
ghost use Rattle.pg_order.specs.Views.{View, is_unserved, IsWaiting, IsFresh};
ghost use Rattle.pg_order.specs.Worked.{Upgrade, OwnerStores, OtherStores, LostEvict, PutOffLoad};

#[tactic(auto, using(crate::proofs::Between::head, crate::proofs::Quiet::unchanged, crate::proofs::Steps::waiting_stays, crate::proofs::Passed::passed_on, crate::proofs::Appended::waiting_more, crate::proofs::Back::owed_back, crate::proofs::Invs::owes_some, crate::proofs::Owed::owed_less, crate::proofs::Race::before_own, crate::proofs::Lost::data_last))]
/// Whatever was ordered after a fresh grant of ownership is stale or isn't served.
pub fn no_overtaking()
    ensures { (d : Draft) (n : ℕ) (p : DirOrder) (v : View) (g c j : ℕ) → IsWellFormed d → IsShaped d → IsDirOrder d n p → IsWaiting d p v → IsFresh g c p v → g ≤ j → j < p.top
        → (is_stale (p.dir_entry j) (p.at j) ≡ true) ⊎ (is_unserved d p v j ≡ true) }
{}

/// Small orders, as a person works them out.
pub fn worked_orders()
    ensures upgrade { Upgrade }
    ensures owner_stores { OwnerStores }
    ensures other_stores { OtherStores }
    ensures lost_evict { LostEvict }
    ensures put_off { PutOffLoad }
{}
