//! Laws on the tables of cache controllers.

ghost use Rattle.std.specs.Prelude.{ℕ, ◌≡◌, ◌↔◌, ◌⊎◌, true, false, List, [], ◌∷◌, map, slice_get, Some, None, if◌then◌else◌};
ghost use Rattle.std.specs.List.{list_any, IsDistinct};
ghost use Rattle.pg_perm.specs.declared.kinds.Event.{Event};
ghost use Rattle.pg_perm.specs.declared.kinds.FwdClass.TheVariants as class;
ghost use Rattle.pg_perm.specs.declared.kinds.Mode.{Mode};
ghost use Rattle.pg_perm.specs.declared.kinds.Mode.TheVariants as mode;
ghost use Rattle.pg_perm.specs.declared.draft.Draft.{Draft};
ghost use Rattle.pg_perm.specs.Drafts.{IsWellFormed};
ghost use Rattle.pg_terms.specs.Terms.{has_class};
ghost use Rattle.pg_shape.specs.Shaped.{IsShaped};
ghost use Rattle.pg_table.specs.declared.cache.Desc.{Desc};
ghost use Rattle.pg_table.specs.declared.cache.Desc.TheVariants.{Ask};
ghost use Rattle.pg_table.specs.declared.cache.Phase.{Phase};
ghost use Rattle.pg_table.specs.declared.cache.Tag.{Tag};
ghost use Rattle.pg_table.specs.declared.cache.Input.{Input};
ghost use Rattle.pg_table.specs.declared.cache.Input.TheVariants as at;
ghost use Rattle.pg_table.specs.declared.cache.Act.TheVariants as act;
ghost use Rattle.pg_table.specs.Controllers.{row_for};
ghost use Rattle.pg_table.specs.Descriptors.{descs};
ghost use Rattle.pg_table.specs.Choices.{Choice, tag_by, choices};
ghost use Rattle.pg_table.specs.GeneratedStates.{inputs, choice_of_mode, rows_of};
ghost use Rattle.pg_table.specs.MixedTables.{mixed_table, IsMix};
ghost use Rattle.pg_table.specs.Stalls.{is_later_at, is_stall};
ghost use Rattle.pg_table.specs.Tables.{Row, TableState, same_desc, number_of, same_input, find_row, table_row, cache_table, dir_table};
ghost use Rattle.pg_table.specs.Sound.{is_among, rows_for, Follows, IsSoundCache, IsSound};

/// Two states are the same just where they are equal, and a state that is among others stands at its number.
pub fn states_have_numbers()
    ensures same { (a b : Desc) → same_desc a b ≡ true → a ≡ b }
    ensures itself { (a : Desc) → same_desc a a ≡ true }
    ensures number { (xs : List Desc) (s : Desc) → is_among xs s ≡ true → slice_get xs (number_of xs s) ≡ Some s }
{}

/// The states of a cache controller are told apart: none stands twice.
pub fn states_are_told_apart()
    ensures { (d : Draft) (m : Mode) → IsWellFormed d → IsShaped d → IsDistinct same_desc (descs d m) }
{}

/// Whichever forwards wait, a cache controller has the states that it has where all wait, and has no others than where all are put off.
pub fn states_of_both_modes()
    ensures needed { (d : Draft) (m : Mode) (s : Desc) → IsWellFormed d → IsShaped d → is_among (descs d mode.Stall) s ≡ true → is_among (descs d m) s ≡ true }
    ensures known { (d : Draft) (m : Mode) (s : Desc) → IsWellFormed d → IsShaped d → is_among (descs d m) s ≡ true → is_among (descs d mode.Defer) s ≡ true }
{}

#[tactic(auto, using(crate::proofs::Onward::chosen_leads_to_state))]
/// Each row that is generated for a state of a cache controller leads to one of its states.
pub fn rows_lead_to_states()
    ensures { (d : Draft) (m : Mode) (s : Desc) (i : Input) (c : Choice) → IsWellFormed d → IsShaped d → is_among (descs d m) s ≡ true
        → choice_of_mode m (choices d s i) ≡ Some c → is_among (descs d m) c.next ≡ true }
{}

/// Each input that may come to a cache controller is among the inputs of the protocol, and the inputs are told apart.
pub fn inputs_are_listed_once()
    ensures listed { (d : Draft) (s : Desc) (i : Input) (c : Choice) (cs : List Choice) → IsWellFormed d → IsShaped d → choices d s i ≡ c ∷ cs
        → list_any (λ j. same_input j i) (inputs d) ≡ true }
    ensures apart { (d : Draft) → IsDistinct same_input (inputs d) }
{}

/// A generated state has for an input the row of the choice that was made, and no other; and each row is for one input.
pub fn rows_are_for_one_input()
    ensures chosen { (d : Draft) (m : Mode) (ss : List Desc) (s : Desc) (i : Input) → IsWellFormed d → IsShaped d
        → rows_for i (map (table_row ss) (rows_of d m s)) ≡ map (table_row ss) (row_for i (choice_of_mode m (choices d s i))) }
    ensures single { (d : Draft) (m : Mode) (ss : List Desc) (s : Desc) (k : ℕ) (r : Row) → slice_get (map (table_row ss) (rows_of d m s)) k ≡ Some r
        → (i : Input) × (r.inputs ≡ i ∷ []) }
{}

/// The generated tables of a protocol are sound, in both modes.
pub fn generated_tables_are_sound()
    ensures { (d : Draft) (m : Mode) → IsWellFormed d → IsShaped d → IsSound d (cache_table d m) (dir_table d) }
{}

/// A table that lets some forwards wait and puts others off is sound, where none of its states stands twice, they lie between those of both modes, and
/// each row leads to one of them.
pub fn mixed_tables_are_sound()
    ensures { (d : Draft) (pick : Desc → Input → Mode) (states : List Desc) → IsWellFormed d → IsShaped d → IsMix d pick states
        → IsSound d (mixed_table d pick states) (dir_table d) }
{}

/// In a state of a sound table and at an input the row that is found follows one of the choices that may be made there. Where none may be made, no row
/// is found.
pub fn sound_tables_answer()
    ensures some { (d : Draft) (t : List TableState) (n : ℕ) (s : TableState) (i : Input) (c : Choice) (cs : List Choice) → IsSoundCache d t
        → slice_get t n ≡ Some s → choices d s.desc i ≡ c ∷ cs → (r : Row) × (find_row t n i ≡ Some r) × Follows t (c ∷ cs) r }
    ensures none { (d : Draft) (t : List TableState) (n : ℕ) (s : TableState) (i : Input) → IsSoundCache d t → slice_get t n ≡ Some s
        → choices d s.desc i ≡ [] → find_row t n i ≡ None }
{}

/// Where a forward is later than the operation of a cache there are two choices: it waits, and the state stays the same, or it is taken at once, an invalidation
/// by an acknowledgement and another by being put off, and the state's tag tells which has come. Elsewhere there is one choice at most. So where
/// forwards wait, a cache lets exactly the later ones wait, and does nothing else with them; where they are put off, it lets none wait.
pub fn later_forwards_stall()
    ensures both { (d : Draft) (e : Event) (x : ℕ) (p : Phase) (t : Tag) (f : ℕ) → is_later_at d (Ask e x p t) (at.Forward f) ≡ true
        → choices d (Ask e x p t) (at.Forward f) ≡ record { acts = act.Stall ∷ []; next = Ask e x p t }
        ∷ record { acts = (if has_class class.Inv d f then act.Ack else act.Defer) ∷ []; next = Ask e x p (tag_by d f) } ∷ [] }
    ensures forwards { (d : Draft) (s : Desc) (i : Input) → is_later_at d s i ≡ true
        → (e : Event) × (x : ℕ) × (p : Phase) × (t : Tag) × (f : ℕ) × (s ≡ Ask e x p t) × (i ≡ at.Forward f) }
    ensures one { (d : Draft) (s : Desc) (i : Input) → is_later_at d s i ≡ false → (choices d s i ≡ []) ⊎ ((c : Choice) × (choices d s i ≡ c ∷ [])) }
    ensures stalls { (d : Draft) (s : Desc) (i : Input) (c : Choice) → choice_of_mode mode.Stall (choices d s i) ≡ Some c
        → ((c.acts ≡ act.Stall ∷ []) ↔ (is_later_at d s i ≡ true)) }
    ensures others { (d : Draft) (m : Mode) (s : Desc) (i : Input) (c : Choice) → choice_of_mode m (choices d s i) ≡ Some c → is_later_at d s i ≡ false
        → list_any is_stall c.acts ≡ false }
    ensures put_off { (d : Draft) (s : Desc) (i : Input) (c : Choice) → choice_of_mode mode.Defer (choices d s i) ≡ Some c → list_any is_stall c.acts ≡ false }
{}
