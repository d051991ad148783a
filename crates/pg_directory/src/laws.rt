//! Laws of the definitions of this crate.

ghost use Rattle.std.specs.Prelude.{ℕ, ◌≡◌, ◌<◌, ◌==◌, true, false, List, ◌∷◌, ◌++◌, Some, None};
ghost use Rattle.pg_perm.specs.declared.kinds.Event.TheVariants.{Store};
ghost use Rattle.pg_perm.specs.declared.kinds.Who.TheVariants.{Other, Sharer, Owner};
ghost use Rattle.pg_perm.specs.declared.kinds.FwdClass.TheVariants.{Inv};
ghost use Rattle.pg_perm.specs.declared.draft.Draft.{Draft};
ghost use Rattle.pg_perm.specs.declared.draft.Action.TheVariants.{Forward};
ghost use Rattle.pg_perm.specs.Drafts.{IsWellFormed};
ghost use Rattle.pg_terms.specs.Terms.{out, is, forward_of};
ghost use Rattle.pg_shape.specs.Shaped.{IsShaped};
ghost use Rattle.pg_directory.specs.DirEntries.{DirEntry, Request, who, initial_entry, entry_after, entry_after_all};
ghost use Rattle.pg_directory.specs.Sends.{forward_sent};
ghost use Rattle.pg_directory.specs.Sound.{IsSound, IsLegal, AreLegal, fits};
ghost use Rattle.pg_directory.specs.Kinds.{Kind, requestor_by_kind, other_by_kind, IsOfKind};
ghost use Rattle.pg_directory.specs.Requests.{IsHandled, action_of};

/// At first what the directory knows is sound, and the out state fits for every core.
pub fn starts_are_sound()
    ensures sound { (d : Draft) (n : ℕ) → IsWellFormed d → IsShaped d → IsSound d n (initial_entry d) }
    ensures out { (d : Draft) (c x : ℕ) → IsWellFormed d → IsShaped d → is (out d) x ≡ true → fits d (initial_entry d) c x ≡ true }
{}

/// What a request does that may come where what the directory knows is sound.
pub fn requests_are_handled()
    ensures { (d : Draft) (n : ℕ) (s : DirEntry) (q : Request) → IsWellFormed d → IsShaped d → IsSound d n s → q.core < n → IsLegal d s q
        → IsHandled d n s q }
{}

/// A request is of one kind alone.
pub fn kinds_are_told_apart()
    ensures { (d : Draft) (s : DirEntry) (q : Request) (j k : Kind) (m n : ℕ) → IsOfKind d s q j m → IsOfKind d s q k n → j ≡ k }
{}

/// What each core is to the directory after a request goes by the kind: the requestor by the kind alone, and another core by what it was.
pub fn kinds_tell_who_is_who()
    ensures requestor { (d : Draft) (n : ℕ) (s : DirEntry) (q : Request) (k : Kind) (next : ℕ) → IsSound d n s → IsOfKind d s q k next
        → who (entry_after d s q) q.core ≡ requestor_by_kind k }
    ensures others { (d : Draft) (s : DirEntry) (q : Request) (k : Kind) (next c : ℕ) → IsOfKind d s q k next → (q.core == c) ≡ false
        → who (entry_after d s q) c ≡ other_by_kind k (who s c) }
{}

/// Forwards go to holders alone: neither the requestor nor a core that holds nothing is sent one, a sharer is sent an invalidation by a store,
/// and the owner what is passed on.
pub fn forwards_go_to_holders()
    ensures requestor { (d : Draft) (s : DirEntry) (q : Request) → forward_sent d s q q.core ≡ None }
    ensures nothing { (d : Draft) (s : DirEntry) (q : Request) (c : ℕ) → who s c ≡ Other → forward_sent d s q c ≡ None }
    ensures sharers { (d : Draft) (s : DirEntry) (q : Request) (c f : ℕ) → who s c ≡ Sharer → forward_sent d s q c ≡ Some f
        → (q.event ≡ Store) × (forward_of d Inv ≡ Some f) }
    ensures owner { (d : Draft) (n : ℕ) (s : DirEntry) (q : Request) (c f : ℕ) → IsSound d n s → who s c ≡ Owner → forward_sent d s q c ≡ Some f
        → action_of d s q ≡ Some (Forward f) }
{}

/// Along a list of requests each of which may come where those before it led, what the directory knows stays sound, and each request does what
/// it does alone.
pub fn legal_lists_are_handled()
    ensures sound { (d : Draft) (n : ℕ) (s : DirEntry) (qs : List Request) → IsWellFormed d → IsShaped d → IsSound d n s → AreLegal d n s qs
        → IsSound d n (entry_after_all d s qs) }
    ensures handled { (d : Draft) (n : ℕ) (s : DirEntry) (before after : List Request) (q : Request) → IsWellFormed d → IsShaped d → IsSound d n s
        → AreLegal d n s (before ++ q ∷ after) → IsHandled d n (entry_after_all d s before) q }
    ensures parts { (d : Draft) (n : ℕ) (s : DirEntry) (xs ys : List Request) → AreLegal d n s (xs ++ ys)
        → AreLegal d n s xs × AreLegal d n (entry_after_all d s xs) ys }
    ensures leads { (d : Draft) (s : DirEntry) (xs ys : List Request) → entry_after_all d s (xs ++ ys) ≡ entry_after_all d (entry_after_all d s xs) ys }
{}
