//! Laws on events.

ghost use Rattle.std.specs.Prelude.{ℕ, ◌≡◌, ◌<◌, true, false, List, ◌∷◌, slice_get, Some};
ghost use Rattle.pg_perm.specs.declared.kinds.FwdClass.TheVariants.{Inv};
ghost use Rattle.pg_perm.specs.declared.draft.Draft.{Draft};
ghost use Rattle.pg_perm.specs.Drafts.{IsWellFormed};
ghost use Rattle.pg_terms.specs.Terms.{has_class};
ghost use Rattle.pg_shape.specs.Shaped.{IsShaped};
ghost use Rattle.pg_table.specs.Tables.{TableState};
ghost use Rattle.pg_table.specs.Pick.{pick};
ghost use Rattle.pg_table.specs.Sound.{IsSoundCache};
ghost use Rattle.pg_messages.specs.declared.messages.Ordered.{Ordered};
ghost use Rattle.pg_messages.specs.declared.messages.Ordered.TheVariants.{Forward, AckCount};
ghost use Rattle.pg_messages.specs.declared.messages.Reply.TheVariants.{Data, InvAck};
ghost use Rattle.pg_messages.specs.declared.messages.WorldEvent.TheVariants.{Ordered as Ordered_to, Reply as Reply_at};
ghost use Rattle.pg_controllers.specs.Worlds.{World, core, move, is_enabled};
ghost use Rattle.pg_orderly.specs.Orderly.{Mark, is_pending, IsOrderly};
ghost use Rattle.pg_safe.specs.Moving.{IsComplete};
ghost use Rattle.pg_completions.specs.Answering.{answers_it};
ghost use Rattle.pg_perm.specs.declared.kinds.Event.TheVariants.{Load, Store};
ghost use Rattle.pg_samples.specs.Drafts.{mosi, msi};
ghost use Rattle.pg_table.specs.declared.cache.Desc.TheVariants.{Ask, Leave, Stable};
ghost use Rattle.pg_table.specs.declared.cache.Phase.TheVariants.{A, Ac, Ad, D};
ghost use Rattle.pg_table.specs.declared.cache.Tag.TheVariants.{Gone, Plain};

/// Data, an acknowledgement, a count, and an invalidation at a pending line that doesn't answer it as where it began: each keeps worlds orderly, by whatever row a
/// sound table has for it.
pub fn messages_keep_worlds_orderly()
    ensures filled { (d : Draft) (t : List TableState) (n : ℕ) (w : World) (m : ℕ → Mark) (i r c v cnt k : ℕ) → IsWellFormed d → IsShaped d → IsSoundCache d t → IsOrderly d n w m
        → IsComplete t n w → slice_get w.replies i ≡ Some (Data r c v cnt k) → (u : ℕ → Mark) × IsOrderly d n (move d (pick t) w (Reply_at i)) u }
    ensures acknowledged { (d : Draft) (t : List TableState) (n : ℕ) (w : World) (m : ℕ → Mark) (i c k : ℕ) → IsWellFormed d → IsShaped d → IsSoundCache d t → IsOrderly d n w m
        → IsComplete t n w → slice_get w.replies i ≡ Some (InvAck c k) → (u : ℕ → Mark) × IsOrderly d n (move d (pick t) w (Reply_at i)) u }
    ensures counted { (d : Draft) (t : List TableState) (n : ℕ) (w : World) (m : ℕ → Mark) (c cnt k : ℕ) (ms : List Ordered) → IsWellFormed d → IsShaped d → IsSoundCache d t
        → IsOrderly d n w m → IsComplete t n w → c < n → (core w c).queue ≡ AckCount cnt k ∷ ms → (u : ℕ → Mark) × IsOrderly d n (move d (pick t) w (Ordered_to c)) u }
    ensures early { (d : Draft) (t : List TableState) (n : ℕ) (w : World) (m : ℕ → Mark) (c f r i k : ℕ) (ms : List Ordered) → IsWellFormed d → IsShaped d → IsSoundCache d t
        → IsOrderly d n w m → IsComplete t n w → c < n → (core w c).queue ≡ Forward f r i k ∷ ms → has_class Inv d f ≡ true → is_pending (core w c) ≡ true
        → answers_it d (core w c).line.desc f ≡ false → is_enabled (pick t) w (Ordered_to c) ≡ true → (u : ℕ → Mark) × IsOrderly d n (move d (pick t) w (Ordered_to c)) u }
{}

/// Which lines of MSI answer an invalidation as where they began, and of MOSI a share: a stable one, one that leaves, a sharer whose store was granted nothing, and
/// an owner whose store waits for its count. A load that waits for data does not, nor a store that met an invalidation or has its data.
pub fn worked_answers()
    ensures stable { answers_it msi (Stable 1) 4 ≡ true }
    ensures leaving { answers_it msi (Leave 1) 4 ≡ true }
    ensures sharer_storing { answers_it msi (Ask Store 1 Ad Plain) 4 ≡ true }
    ensures sharer_asked { answers_it msi (Ask Store 1 Ad Plain) 5 ≡ false }
    ensures invalidated { answers_it msi (Ask Store 1 Ad Gone) 4 ≡ false }
    ensures out_storing { answers_it msi (Ask Store 0 Ad Plain) 4 ≡ false }
    ensures granted { answers_it msi (Ask Store 1 A Plain) 4 ≡ false }
    ensures loading { answers_it msi (Ask Load 0 D Plain) 4 ≡ false }
    ensures owner_storing { (s f : ℕ) → answers_it mosi (Ask Store s Ac Plain) f ≡ true }
{}
