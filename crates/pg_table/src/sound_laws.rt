//! Laws on every sound table of a cache controller: which states it has, at which numbers they stand, and where it lets forwards wait.

ghost use Rattle.std.specs.Prelude.{ℕ, ◌<◌, ◌≡◌, ◌≢◌, ◌↔◌, ◌⊎◌, true, false, List, [], ◌∷◌, length, slice_get, Some, is_some, if◌then◌else◌};
ghost use Rattle.std.specs.List.{list_any};
ghost use Rattle.std.specs.Option.{option_and_then};
ghost use Rattle.pg_perm.specs.declared.kinds.Event.{Event};
ghost use Rattle.pg_perm.specs.declared.kinds.Event.TheVariants.{Load, Store, Evict};
ghost use Rattle.pg_perm.specs.declared.kinds.FwdClass.TheVariants as class;
ghost use Rattle.pg_perm.specs.declared.draft.Draft.{Draft};
ghost use Rattle.pg_terms.specs.Terms.{is_read_owner, cache_is, out, shared, has_class};
ghost use Rattle.pg_shape.specs.Shaped.{IsShaped};
ghost use Rattle.pg_table.specs.declared.cache.Desc.{Desc};
ghost use Rattle.pg_table.specs.declared.cache.Desc.TheVariants.{Stable, Ask, Leave};
ghost use Rattle.pg_table.specs.declared.cache.Phase.{Phase};
ghost use Rattle.pg_table.specs.declared.cache.Phase.TheVariants.{D, Ad, Ac, A};
ghost use Rattle.pg_table.specs.declared.cache.Tag.{Tag};
ghost use Rattle.pg_table.specs.declared.cache.Tag.TheVariants.{Plain};
ghost use Rattle.pg_table.specs.declared.cache.Input.{Input};
ghost use Rattle.pg_table.specs.declared.cache.Input.TheVariants as at;
ghost use Rattle.pg_table.specs.declared.cache.Act.TheVariants as act;
ghost use Rattle.pg_table.specs.Controllers.{state_at};
ghost use Rattle.pg_table.specs.Descriptors.{out_state, end_under_tag, final_states};
ghost use Rattle.pg_table.specs.Choices.{Choice, tag_by};
ghost use Rattle.pg_table.specs.Stalls.{is_later_at, is_stall};
ghost use Rattle.pg_table.specs.Tables.{Row, TableState, number_of, find_row};
ghost use Rattle.pg_table.specs.Sound.{is_among, states_of, IsSoundCache};
ghost use Rattle.pg_table.specs.Pick.{choice_in, pick};

/// Which states a sound table may have. A load waits for data and began as out. A store that waits for data began as out or shared, one that waits for a
/// count began as an owner that may only read and has no tag, and one that waits for acknowledgements began as one of these three, where there is a shared
/// state. A tag of the others tells where one of the final states ends. There are no other states but those that are stable and those that leave.
pub fn states_of_sound_tables()
    ensures stable { (d : Draft) (t : List TableState) (s : ℕ) → IsShaped d → IsSoundCache d t → ((is_among (states_of t) (Stable s) ≡ true) ↔ (s < length d.caches)) }
    ensures leaving { (d : Draft) (t : List TableState) (s : ℕ) → IsShaped d → IsSoundCache d t → ((is_among (states_of t) (Leave s) ≡ true) ↔ (s < length d.caches)) }
    ensures load { (d : Draft) (t : List TableState) (s : ℕ) (p : Phase) (g : Tag) → IsShaped d → IsSoundCache d t
        → is_among (states_of t) (Ask Load s p g) ≡ true → (p ≡ D) × (out d ≡ Some s) }
    ensures data { (d : Draft) (t : List TableState) (s : ℕ) (g : Tag) → IsShaped d → IsSoundCache d t
        → is_among (states_of t) (Ask Store s Ad g) ≡ true → (out d ≡ Some s) ⊎ (shared d ≡ Some s) }
    ensures count { (d : Draft) (t : List TableState) (s : ℕ) (g : Tag) → IsShaped d → IsSoundCache d t
        → is_among (states_of t) (Ask Store s Ac g) ≡ true → (cache_is is_read_owner d s ≡ true) × (g ≡ Plain) }
    ensures acks { (d : Draft) (t : List TableState) (s : ℕ) (g : Tag) → IsShaped d → IsSoundCache d t
        → is_among (states_of t) (Ask Store s A g) ≡ true
        → (is_some (shared d) ≡ true) × ((out d ≡ Some s) ⊎ ((shared d ≡ Some s) ⊎ (cache_is is_read_owner d s ≡ true))) }
    ensures tags { (d : Draft) (t : List TableState) (e : Event) (s : ℕ) (p : Phase) (g : Tag) → IsShaped d → IsSoundCache d t → p ≢ Ac
        → is_among (states_of t) (Ask e s p g) ≡ true
        → (k f x : ℕ) × (slice_get (final_states d s e) k ≡ Some f) × (end_under_tag d f g ≡ Some x) }
    ensures no_store { (d : Draft) (t : List TableState) (s : ℕ) (g : Tag) → IsShaped d → IsSoundCache d t → is_among (states_of t) (Ask Store s D g) ≡ false }
    ensures no_evict { (d : Draft) (t : List TableState) (s : ℕ) (p : Phase) (g : Tag) → IsShaped d → IsSoundCache d t
        → is_among (states_of t) (Ask Evict s p g) ≡ false }
{}

/// Each sound table has each of these states without a tag, and the state in which a cache begins.
pub fn sound_tables_have_untagged_states()
    ensures initial { (d : Draft) (t : List TableState) → IsShaped d → IsSoundCache d t → is_among (states_of t) (Stable (out_state d)) ≡ true }
    ensures load { (d : Draft) (t : List TableState) (s : ℕ) → IsShaped d → IsSoundCache d t → out d ≡ Some s → is_among (states_of t) (Ask Load s D Plain) ≡ true }
    ensures data { (d : Draft) (t : List TableState) (s : ℕ) → IsShaped d → IsSoundCache d t → (out d ≡ Some s) ⊎ (shared d ≡ Some s)
        → is_among (states_of t) (Ask Store s Ad Plain) ≡ true }
    ensures count { (d : Draft) (t : List TableState) (s : ℕ) → IsShaped d → IsSoundCache d t → cache_is is_read_owner d s ≡ true
        → is_among (states_of t) (Ask Store s Ac Plain) ≡ true }
    ensures acks { (d : Draft) (t : List TableState) (s : ℕ) → IsShaped d → IsSoundCache d t → is_some (shared d) ≡ true
        → (out d ≡ Some s) ⊎ ((shared d ≡ Some s) ⊎ (cache_is is_read_owner d s ≡ true)) → is_among (states_of t) (Ask Store s A Plain) ≡ true }
{}

/// In a sound table a state stands at its number and nowhere else, so what is picked in the state is what is found at its number, and the next state of a
/// row that is found is the number of the one that is picked.
pub fn sound_tables_number_states()
    ensures number { (d : Draft) (t : List TableState) (n : ℕ) (s : TableState) → IsSoundCache d t → slice_get t n ≡ Some s → number_of (states_of t) s.desc ≡ n }
    ensures state { (d : Draft) (t : List TableState) (s : Desc) → IsSoundCache d t → is_among (states_of t) s ≡ true
        → state_at t (number_of (states_of t) s) ≡ Some s }
    ensures found { (d : Draft) (t : List TableState) (n : ℕ) (s : TableState) (i : Input) → IsSoundCache d t → slice_get t n ≡ Some s
        → pick t s.desc i ≡ option_and_then (choice_in t) (find_row t n i) }
    ensures picked { (d : Draft) (t : List TableState) (n : ℕ) (s : TableState) (i : Input) (r : Row) → IsSoundCache d t → slice_get t n ≡ Some s
        → find_row t n i ≡ Some r → (c : Choice) × (pick t s.desc i ≡ Some c) × (r.acts ≡ c.acts) × (r.next ≡ number_of (states_of t) c.next) }
{}

/// A row of a sound table lets a message wait only if that is a forward later than the operation, and then it does nothing else and stays in its state. A
/// row for such a forward either does so or takes it at once, and then the tag of the next state tells which has come.
pub fn sound_tables_stall_later_forwards()
    ensures stall { (d : Draft) (t : List TableState) (n k : ℕ) (s : TableState) (r : Row) (i : Input) → IsSoundCache d t → slice_get t n ≡ Some s
        → slice_get s.rows k ≡ Some r → r.inputs ≡ i ∷ [] → list_any is_stall r.acts ≡ true
        → (is_later_at d s.desc i ≡ true) × (r.acts ≡ act.Stall ∷ []) × (r.next ≡ n) }
    ensures either { (d : Draft) (t : List TableState) (n k : ℕ) (s : TableState) (r : Row) (e : Event) (x : ℕ) (p : Phase) (g : Tag) (f : ℕ) → IsSoundCache d t
        → slice_get t n ≡ Some s → slice_get s.rows k ≡ Some r → s.desc ≡ Ask e x p g → r.inputs ≡ at.Forward f ∷ []
        → is_later_at d (Ask e x p g) (at.Forward f) ≡ true → ((r.acts ≡ act.Stall ∷ []) × (r.next ≡ n))
        ⊎ ((r.acts ≡ (if has_class class.Inv d f then act.Ack else act.Defer) ∷ []) × (state_at t r.next ≡ Some (Ask e x p (tag_by d f)))) }
{}
