//! Laws on where the operations of a cache end.

ghost use Rattle.std.specs.Prelude.{ℕ, ◌≡◌, true, [], ◌∷◌, Some, unwrap_or, is_some};
ghost use Rattle.std.specs.Option.{option_and_then};
ghost use Rattle.pg_perm.specs.declared.kinds.Event.TheVariants.{Load, Store};
ghost use Rattle.pg_perm.specs.declared.kinds.Mode.TheVariants as mode;
ghost use Rattle.pg_perm.specs.declared.draft.Draft.{Draft};
ghost use Rattle.pg_perm.specs.declared.draft.ReplyName.TheVariants as reply;
ghost use Rattle.pg_terms.specs.Terms.{cache_is, shared, core_row};
ghost use Rattle.pg_terms.specs.Rows.{allows, store_next, final_state};
ghost use Rattle.pg_shape.specs.Shaped.{IsShaped};
ghost use Rattle.pg_table.specs.declared.cache.Desc.TheVariants.{Stable, Ask};
ghost use Rattle.pg_table.specs.declared.cache.Phase.TheVariants.{Ad, Ac, A};
ghost use Rattle.pg_table.specs.declared.cache.Tag.{Tag};
ghost use Rattle.pg_table.specs.declared.cache.Tag.TheVariants.{Plain};
ghost use Rattle.pg_table.specs.declared.cache.Input.TheVariants as at;
ghost use Rattle.pg_table.specs.declared.cache.Act.TheVariants as act;
ghost use Rattle.pg_table.specs.Descriptors.{end_under_tag, descs};
ghost use Rattle.pg_table.specs.Choices.{serve_acts, choices};
ghost use Rattle.pg_table.specs.Sound.{is_among};

/// Data that has all its acknowledgements ends a store, and data that lacks some leads to where they are awaited, with the same tag; the last of them then
/// ends the store in the same state. So it does where an owner that may only read got its number first.
pub fn last_acknowledgements_end_as_data()
    ensures data { (d : Draft) (s r x : ℕ) (g : Tag) → IsShaped d → is_among (descs d mode.Defer) (Ask Store s A g) ≡ true
        → final_state d s Store (reply.Reply r) ≡ Some x → (y : ℕ) × (end_under_tag d x g ≡ Some y)
        × (choices d (Ask Store s Ad g) (at.DataAll r) ≡ record { acts = act.Fill ∷ act.Done ∷ serve_acts g; next = Stable y } ∷ [])
        × (choices d (Ask Store s Ad g) (at.DataPart r) ≡ record { acts = act.Fill ∷ act.Need ∷ []; next = Ask Store s A g } ∷ [])
        × (choices d (Ask Store s A g) at.AckLast ≡ record { acts = act.Count ∷ act.Done ∷ serve_acts g; next = Stable y } ∷ []) }
    ensures count { (d : Draft) (s x : ℕ) → IsShaped d → is_some (shared d) ≡ true → final_state d s Store reply.AckCount ≡ Some x
        → (choices d (Ask Store s Ac Plain) at.CountAll ≡ record { acts = act.Done ∷ []; next = Stable x } ∷ [])
        × (choices d (Ask Store s Ac Plain) at.CountPart ≡ record { acts = act.Need ∷ []; next = Ask Store s A Plain } ∷ [])
        × (choices d (Ask Store s A Plain) at.AckLast ≡ record { acts = act.Count ∷ act.Done ∷ []; next = Stable x } ∷ []) }
{}

/// With the permission an operation is done at once: a load stays in its state, and a store goes where its core line leads, as it does in the atomic machine.
pub fn hits_follow_core_lines()
    ensures load { (d : Draft) (s : ℕ) → cache_is (allows Load) d s ≡ true
        → choices d (Stable s) (at.Core Load) ≡ record { acts = act.Hit ∷ []; next = Stable s } ∷ [] }
    ensures store { (d : Draft) (s : ℕ) → IsShaped d → cache_is (allows Store) d s ≡ true → choices d (Stable s) (at.Core Store)
        ≡ record { acts = act.Hit ∷ []; next = Stable (unwrap_or (option_and_then (λ l. store_next s Store l.form) (core_row d s Store)) s) } ∷ [] }
{}
