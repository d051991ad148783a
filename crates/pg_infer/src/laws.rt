//! Laws of the definitions of this crate.

ghost use Rattle.std.specs.Prelude.{ℕ, ◌≡◌, true, false, List, [], ◌∷◌, map, Some, None, IfSome, if◌then◌else◌};
ghost use Rattle.pg_perm.specs.declared.kinds.Event.{Event};
ghost use Rattle.pg_perm.specs.declared.kinds.Event.TheVariants.{Store, Evict};
ghost use Rattle.pg_perm.specs.declared.kinds.FwdClass.{FwdClass};
ghost use Rattle.pg_perm.specs.declared.kinds.FwdClass.TheVariants.{Inv};
ghost use Rattle.pg_perm.specs.declared.kinds.Mode.{Mode};
ghost use Rattle.pg_perm.specs.declared.kinds.Mode.TheVariants as mode;
ghost use Rattle.pg_perm.specs.declared.kinds.Role.{Role};
ghost use Rattle.pg_perm.specs.declared.kinds.Side.TheVariants.{Before, After};
ghost use Rattle.pg_perm.specs.declared.draft.Draft.{Draft};
ghost use Rattle.pg_perm.specs.Drafts.{IsWellFormed};
ghost use Rattle.pg_shape.specs.Shaped.{IsShaped};
ghost use Rattle.pg_race.specs.Sides.{side, IsOutstanding};
ghost use Rattle.pg_terms.specs.Terms.{has_class};
ghost use Rattle.pg_table.specs.declared.cache.Act.TheVariants as act;
ghost use Rattle.pg_table.specs.declared.cache.Desc.{Desc};
ghost use Rattle.pg_table.specs.declared.cache.Desc.TheVariants.{Stable, Ask, Leave};
ghost use Rattle.pg_table.specs.declared.cache.Phase.{Phase};
ghost use Rattle.pg_table.specs.declared.cache.Phase.TheVariants.{D, Ad, Ac, A};
ghost use Rattle.pg_table.specs.declared.cache.Tag.{Tag};
ghost use Rattle.pg_table.specs.declared.cache.Tag.TheVariants as tag;
ghost use Rattle.pg_table.specs.GeneratedStates.{choice_of_mode};
ghost use Rattle.pg_table.specs.declared.cache.Input.TheVariants as at;
ghost use Rattle.pg_table.specs.Choices.{answer_choices, choices};
ghost use Rattle.pg_table.specs.Descriptors.{descs};
ghost use Rattle.pg_table.specs.Sound.{is_among};
ghost use Rattle.pg_infer.specs.Moves.{desc_moved_to};
ghost use Rattle.pg_infer.specs.Race.{class_of, event_of, start_of, role_of, is_granted, is_tagged, is_counting, is_before, choices_by_side, is_answer};
ghost use Rattle.pg_infer.specs.Tags.{has_tag};

/// In each state with an outstanding operation, which is one that the race order is asked about, that order decides what may be done with a forward.
/// Where it says that the forward is earlier, and it may come, it is answered at once, as in the stable state where the operation began or has been
/// led since, and the operation goes on from the state that the answer leads to. Where it says that it is later, and it may come, it waits, or is
/// taken: an invalidation is acknowledged and another is put off. On both sides there is no choice where such a forward can't come.
pub fn the_race_order_decides()
    ensures { (d : Draft) (m : Mode) (s : Desc) (event : Event) (f : ℕ) (class : FwdClass) → IsWellFormed d → IsShaped d → is_among (descs d m) s ≡ true
        → event_of s ≡ Some event → class_of d f ≡ Some class
        → (start : Role) × (role_of d (start_of s) ≡ Some start) × IsOutstanding start event (is_granted s)
        × (choices d s (at.Forward f) ≡ choices_by_side d (side start event (is_granted s) class) s f) }
{}

#[tactic(auto, using(crate::proofs::Race::answers_do_not_wait))]
/// A forward that is answered has at most one choice, in which nothing waits or is put off.
pub fn answers_do_not_wait()
    ensures { (d : Draft) (s : ℕ) (f : ℕ) (onward : ℕ → Desc) → is_answer (answer_choices d s f onward) ≡ true }
{}

/// An earlier forward leads the state on which a cache stands to that of its take row. What is outstanding stays so, and is granted nothing by it: a
/// store goes on from there as if it had begun there, an evict too, and where nothing is outstanding nothing is then.
pub fn earlier_forwards_move_the_start()
    ensures start { (d : Draft) (s : Desc) (t : ℕ) → start_of (desc_moved_to d s t) ≡ t }
    ensures granted { (d : Draft) (s : Desc) (t : ℕ) → is_granted (desc_moved_to d s t) ≡ false }
    ensures stable { (d : Draft) (s t : ℕ) → event_of (desc_moved_to d (Stable s) t) ≡ None }
    ensures store { (d : Draft) (s t : ℕ) (p : Phase) (g : Tag) → event_of (desc_moved_to d (Ask Store s p g) t) ≡ Some Store }
    ensures evict { (d : Draft) (s t : ℕ) → event_of (desc_moved_to d (Leave s) t) ≡ Some Evict }
{}

/// A later forward waits in the stalling mode, and the state stays the same. In the deferring mode an invalidation is acknowledged and another forward is
/// put off. Then too the operation stays the one that it was, and stands on the stable state on which it stood.
pub fn later_forwards_wait()
    ensures stalls { (d : Draft) (s : ℕ) (e : Event) (p : Phase) (g : Tag) (f : ℕ)
        → IfSome (choice_of_mode mode.Stall (choices_by_side d After (Ask e s p g) f)) (λ c. (c.acts ≡ act.Stall ∷ []) × (c.next ≡ Ask e s p g)) }
    ensures taken { (d : Draft) (s : ℕ) (e : Event) (p : Phase) (g : Tag) (f : ℕ)
        → IfSome (choice_of_mode mode.Defer (choices_by_side d After (Ask e s p g) f))
        (λ c. (c.acts ≡ (if has_class Inv d f then act.Ack else act.Defer) ∷ []) × (start_of c.next ≡ s) × (event_of c.next ≡ Some e)) }
    ensures evict { (d : Draft) (s f : ℕ) → choices_by_side d After (Leave s) f ≡ [] }
{}

/// An operation is granted once acknowledgements alone are waited for, or once a later forward has come, whichever that was. In the stalling mode no
/// later forward is taken, and so no tag tells of one.
pub fn later_forwards_grant()
    ensures phases { map is_counting (D ∷ Ad ∷ Ac ∷ A ∷ []) ≡ false ∷ false ∷ false ∷ true ∷ [] }
    ensures tags { map is_tagged (tag.Plain ∷ tag.Kept ∷ tag.Gave ∷ tag.Gone ∷ []) ≡ false ∷ true ∷ true ∷ true ∷ [] }
    ensures sides { map is_before (Before ∷ After ∷ []) ≡ true ∷ false ∷ [] }
    ensures stalling { (d : Draft) (s : ℕ) (e : Event) → map (has_tag d mode.Stall s e) (tag.Plain ∷ tag.Kept ∷ tag.Gave ∷ tag.Gone ∷ []) ≡ true ∷ false ∷ false ∷ false ∷ [] }
{}
