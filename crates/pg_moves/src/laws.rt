//! Laws on moves.

ghost use Rattle.std.specs.Prelude.{ℕ, ◌≡◌, ◌<◌, true, false, List, ◌∷◌, length, slice_get, Some};
ghost use Rattle.pg_perm.specs.declared.kinds.FwdClass.TheVariants.{Inv};
ghost use Rattle.pg_perm.specs.declared.draft.Draft.{Draft};
ghost use Rattle.pg_perm.specs.Drafts.{IsWellFormed};
ghost use Rattle.pg_terms.specs.Terms.{has_class};
ghost use Rattle.pg_shape.specs.Shaped.{IsShaped};
ghost use Rattle.pg_table.specs.Tables.{TableState};
ghost use Rattle.pg_table.specs.Pick.{pick};
ghost use Rattle.pg_table.specs.Sound.{IsSoundCache};
ghost use Rattle.pg_messages.specs.declared.messages.Ordered.{Ordered};
ghost use Rattle.pg_messages.specs.declared.messages.Ordered.TheVariants.{Forward, PutAck};
ghost use Rattle.pg_messages.specs.declared.messages.Reply.TheVariants.{WbData};
ghost use Rattle.pg_messages.specs.declared.messages.WorldEvent.TheVariants.{Issue, Request as Request_of, Ordered as Ordered_to, Reply as Reply_at};
ghost use Rattle.pg_controllers.specs.Worlds.{Picks, World, core, move, is_enabled};
ghost use Rattle.pg_orderly.specs.Orderly.{Mark, is_pending, IsOrderly};
ghost use Rattle.pg_safe.specs.Moving.{IsComplete};
ghost use Rattle.pg_moves.specs.Kept.{IsOrderlyWorld, IsSoundWorld};
ghost use Rattle.pg_safe.specs.OneRow.{HasDirState};
ghost use Rattle.pg_controllers.specs.Runs.{opening};
ghost use Rattle.pg_perm.specs.declared.kinds.Op.{Op};

#[tactic(auto, using(crate::proofs::Kept::reached_good))]
/// A world stays orderly when a core begins an operation, when the directory handles a request, when data is written back, when an evict is done, and when a
/// core meets a forward, but for an invalidation that comes while its operation stands in the order.
pub fn worlds_stay_orderly()
    ensures issue { (d : Draft) (t : List TableState) (n : ℕ) (w : World) (m : ℕ → Mark) (c : ℕ) → IsShaped d → IsSoundCache d t → IsOrderly d n w m → IsComplete t n w
        → is_enabled (pick t) w (Issue c) ≡ true → IsOrderlyWorld d n (move d (pick t) w (Issue c)) }
    ensures request { (d : Draft) (n : ℕ) (p : Picks) (w : World) (m : ℕ → Mark) (c : ℕ) → IsWellFormed d → IsShaped d → IsOrderly d n w m
        → is_enabled p w (Request_of c) ≡ true → IsOrderlyWorld d n (move d p w (Request_of c)) }
    ensures written_back { (d : Draft) (n : ℕ) (p : Picks) (w : World) (m : ℕ → Mark) (i v k : ℕ) → IsOrderly d n w m → slice_get w.replies i ≡ Some (WbData v k)
        → IsOrderlyWorld d n (move d p w (Reply_at i)) }
    ensures evicted { (d : Draft) (t : List TableState) (n : ℕ) (w : World) (m : ℕ → Mark) (c k : ℕ) (ms : List Ordered) → IsWellFormed d → IsShaped d → IsSoundCache d t → IsOrderly d n w m → IsComplete t n w
        → c < n → (core w c).queue ≡ PutAck k ∷ ms → IsOrderlyWorld d n (move d (pick t) w (Ordered_to c)) }
    ensures passed { (d : Draft) (t : List TableState) (n : ℕ) (w : World) (m : ℕ → Mark) (c f r i k : ℕ) (ms : List Ordered) → IsWellFormed d → IsShaped d → IsSoundCache d t → IsOrderly d n w m → IsComplete t n w
        → c < n → (core w c).queue ≡ Forward f r i k ∷ ms → is_enabled (pick t) w (Ordered_to c) ≡ true → has_class Inv d f ≡ false → IsOrderlyWorld d n (move d (pick t) w (Ordered_to c)) }
    ensures invalidated { (d : Draft) (t : List TableState) (n : ℕ) (w : World) (m : ℕ → Mark) (c f r i k : ℕ) (ms : List Ordered) → IsWellFormed d → IsShaped d → IsSoundCache d t → IsOrderly d n w m → IsComplete t n w
        → c < n → (core w c).queue ≡ Forward f r i k ∷ ms → is_enabled (pick t) w (Ordered_to c) ≡ true → is_pending (core w c) ≡ false → IsOrderlyWorld d n (move d (pick t) w (Ordered_to c)) }
{}

/// The opening is sound. In a sound world, which is orderly, each line and the directory is in a state of its table.
pub fn sound_worlds_are_orderly()
    ensures opening { (d : Draft) (t : List TableState) (given : List (List Op)) → IsWellFormed d → IsShaped d → IsSoundCache d t
        → IsSoundWorld d t (length given) (opening d given) }
    ensures orderly { (d : Draft) (t : List TableState) (n : ℕ) (w : World) → IsSoundWorld d t n w → IsOrderlyWorld d n w }
    ensures complete { (d : Draft) (t : List TableState) (n : ℕ) (w : World) → IsSoundWorld d t n w → IsComplete t n w }
    ensures directory { (d : Draft) (t : List TableState) (n : ℕ) (w : World) → IsSoundWorld d t n w → HasDirState d w }
{}
