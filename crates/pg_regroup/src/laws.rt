//! What the definitions of this crate give, as a person works it out.

ghost use Rattle.pg_messages.specs.declared.messages.Finished.TheVariants as finish;
ghost use Rattle.pg_perm.specs.declared.kinds.Event.TheVariants as event;
ghost use Rattle.pg_perm.specs.declared.step.Step.TheVariants as step;
ghost use Rattle.pg_perm.specs.declared.step.Step.{Step};
ghost use Rattle.pg_regroup.specs.Placing.{
  put_access,
  put_last,
  put_lists,
  put_operations,
  run_of,
};
ghost use Rattle.pg_regroup.specs.Worked.{done_at, late_at, late_load, load_and_store};
ghost use Rattle.pg_serial.specs.Groups.{serial};
ghost use Rattle.std.specs.Prelude.{◌≡◌, ℕ, List, [], ◌∷◌};

/// Elements are put last, each in its list, and one whose list isn't there is dropped.
pub fn elements_are_put_last()
    ensures last { (x y : ℕ) → put_last ((x ∷ []) ∷ [] ∷ []) 0 y ≡ (x ∷ y ∷ []) ∷ [] ∷ [] }
    ensures place { (x y : ℕ) → put_last ((x ∷ []) ∷ [] ∷ []) 1 y ≡ (x ∷ []) ∷ (y ∷ []) ∷ [] }
    ensures past_the_end { (x y : ℕ) → put_last ((x ∷ []) ∷ [] ∷ []) 2 y ≡ (x ∷ []) ∷ [] ∷ [] }
{}

/// What cores completed is distributed by core, each in its order.
pub fn operations_go_by_core()
    ensures late { put_operations ([] ∷ [] ∷ []) late_load ≡ (late_at 1 0 (finish.Load 0) ∷ []) ∷ (done_at 2 1 (finish.Store 7) ∷ []) ∷ [] }
    ensures order { put_operations ([] ∷ []) (done_at 3 0 (finish.Load 1) ∷ done_at 2 0 (finish.Load 2) ∷ [])
        ≡ (done_at 3 0 (finish.Load 1) ∷ done_at 2 0 (finish.Load 2) ∷ []) ∷ [] }
    ensures no_core { put_operations ([] ∷ []) (done_at 3 1 (finish.Load 1) ∷ []) ≡ [] ∷ [] }
{}

/// Loads and stores go to the group of their stamp, those of the first core before those of the next. An evict is no access, and a late load goes where
/// another does.
pub fn accesses_go_by_stamp()
    ensures load { (k c v : ℕ) (groups : List (List Step)) → put_access groups (done_at k c (finish.Load v)) ≡ put_last groups k (step.Load c v) }
    ensures late_load { (k c v : ℕ) (groups : List (List Step)) → put_access groups (late_at k c (finish.Load v)) ≡ put_last groups k (step.Load c v) }
    ensures store { (k c v : ℕ) (groups : List (List Step)) → put_access groups (done_at k c (finish.Store v)) ≡ put_last groups k (step.Store c v) }
    ensures evict { (k c : ℕ) (groups : List (List Step)) → put_access groups (done_at k c finish.Evict) ≡ groups }
    ensures cores { put_lists ([] ∷ [] ∷ []) ((done_at 1 0 (finish.Load 9) ∷ done_at 1 0 (finish.Load 8) ∷ []) ∷ (done_at 1 1 (finish.Store 7) ∷ []) ∷ [])
        ≡ [] ∷ (step.Load 0 9 ∷ step.Load 0 8 ∷ step.Store 1 7 ∷ []) ∷ [] }
{}

/// Each group stands after the entry of its stamp. So a late load stands before a store that completed earlier and was ordered later.
pub fn groups_stand_after_their_entries()
    ensures late { serial (run_of load_and_store ([] ∷ (step.Load 0 0 ∷ []) ∷ (step.Store 1 7 ∷ []) ∷ [])) 2
        ≡ step.Txn 0 event.Load ∷ step.Load 0 0 ∷ step.Txn 1 event.Store ∷ step.Store 1 7 ∷ [] }
    ensures first { serial (run_of load_and_store ((step.Store 1 5 ∷ []) ∷ [] ∷ [] ∷ [])) 2
        ≡ step.Store 1 5 ∷ step.Txn 0 event.Load ∷ step.Txn 1 event.Store ∷ [] }
{}
