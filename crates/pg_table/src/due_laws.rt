//! Laws on which inputs may come to a cache controller, and on what sound tables pick there.

ghost use Rattle.std.specs.Prelude.{ℕ, ◌≡◌, true, false, List, [], ◌∷◌, slice_get, Some, None, is_some};
ghost use Rattle.pg_perm.specs.declared.kinds.Event.TheVariants.{Store};
ghost use Rattle.pg_perm.specs.declared.kinds.Mode.TheVariants as mode;
ghost use Rattle.pg_perm.specs.declared.draft.Draft.{Draft};
ghost use Rattle.pg_perm.specs.declared.draft.ReplyName.TheVariants as reply;
ghost use Rattle.pg_perm.specs.Drafts.{IsWellFormed};
ghost use Rattle.pg_terms.specs.Rows.{final_state};
ghost use Rattle.pg_shape.specs.Shaped.{IsShaped};
ghost use Rattle.pg_table.specs.declared.cache.Desc.{Desc};
ghost use Rattle.pg_table.specs.declared.cache.Desc.TheVariants.{Ask};
ghost use Rattle.pg_table.specs.declared.cache.Phase.TheVariants.{Ad, A};
ghost use Rattle.pg_table.specs.declared.cache.Tag.{Tag};
ghost use Rattle.pg_table.specs.declared.cache.Input.{Input};
ghost use Rattle.pg_table.specs.declared.cache.Input.TheVariants as at;
ghost use Rattle.pg_table.specs.Descriptors.{descs};
ghost use Rattle.pg_table.specs.Choices.{Choice, choices};
ghost use Rattle.pg_table.specs.DueInputs.{is_due_input};
ghost use Rattle.pg_table.specs.Pick.{pick};
ghost use Rattle.pg_table.specs.Tables.{TableState};
ghost use Rattle.pg_table.specs.Sound.{is_among, states_of, IsSoundCache};

#[tactic(auto, using(crate::proofs::DueInputs::due_chooses, crate::proofs::DueInputs::not_due_chooses_none))]
/// In a state of a cache controller there is a choice at each input that may come, and none at another.
pub fn inputs_that_may_come()
    ensures some { (d : Draft) (s : Desc) (i : Input) → IsWellFormed d → IsShaped d → is_among (descs d mode.Defer) s ≡ true → is_due_input d s i ≡ true
        → (c : Choice) × (cs : List Choice) × (choices d s i ≡ c ∷ cs) }
    ensures none { (d : Draft) (s : Desc) (i : Input) → IsWellFormed d → IsShaped d → is_among (descs d mode.Defer) s ≡ true → is_due_input d s i ≡ false
        → choices d s i ≡ [] }
{}

#[tactic(auto, using(crate::proofs::StoreEnds::data_ends, crate::proofs::StoreEnds::acks_end))]
/// A store may end under each of its tags, since all final states of its row are one. So where it waits for data, those with which it ends may come by
/// exactly the replies for which the row has a final state, and where it waits for acknowledgements, the last of them may come.
pub fn stores_may_end()
    ensures data { (d : Draft) (s r : ℕ) (tag : Tag) → IsWellFormed d → IsShaped d → is_among (descs d mode.Defer) (Ask Store s Ad tag) ≡ true
        → is_due_input d (Ask Store s Ad tag) (at.DataAll r) ≡ is_some (final_state d s Store (reply.Reply r)) }
    ensures acks { (d : Draft) (s : ℕ) (tag : Tag) → IsWellFormed d → IsShaped d → is_among (descs d mode.Defer) (Ask Store s A tag) ≡ true
        → is_due_input d (Ask Store s A tag) at.AckLast ≡ true }
{}

/// What a sound table picks in one of its states is one of the choices there, and leads to one of its states. It picks something where there is a
/// choice, and nothing where there is none.
pub fn sound_tables_pick()
    ensures choice { (d : Draft) (t : List TableState) (s : Desc) (i : Input) (c : Choice) → IsSoundCache d t → is_among (states_of t) s ≡ true
        → pick t s i ≡ Some c → (k : ℕ) × (slice_get (choices d s i) k ≡ Some c) }
    ensures onward { (d : Draft) (t : List TableState) (s : Desc) (i : Input) (c : Choice) → IsSoundCache d t → is_among (states_of t) s ≡ true
        → pick t s i ≡ Some c → is_among (states_of t) c.next ≡ true }
    ensures some { (d : Draft) (t : List TableState) (s : Desc) (i : Input) (c : Choice) (cs : List Choice) → IsSoundCache d t → is_among (states_of t) s ≡ true
        → choices d s i ≡ c ∷ cs → (e : Choice) × (pick t s i ≡ Some e) }
    ensures none { (d : Draft) (t : List TableState) (s : Desc) (i : Input) → IsSoundCache d t → is_among (states_of t) s ≡ true
        → choices d s i ≡ [] → pick t s i ≡ None }
{}
