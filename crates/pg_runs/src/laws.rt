//! The laws.

ghost use Rattle.std.specs.Prelude.{ℕ, ◌≡◌, ◌<◌, true, List, [], ◌∷◌, ◌++◌, length, get_or};
ghost use Rattle.pg_perm.specs.declared.kinds.Op.{Op};
ghost use Rattle.pg_perm.specs.declared.step.Step.{Step};
ghost use Rattle.pg_perm.specs.declared.step.Step.TheVariants as taken;
ghost use Rattle.pg_perm.specs.declared.draft.Draft.{Draft};
ghost use Rattle.pg_perm.specs.Drafts.{IsWellFormed};
ghost use Rattle.pg_shape.specs.Shaped.{IsShaped};
ghost use Rattle.pg_atomic.specs.Stores.{last_word_stored};
ghost use Rattle.pg_table.specs.Tables.{TableState};
ghost use Rattle.pg_table.specs.Pick.{pick};
ghost use Rattle.pg_table.specs.Sound.{IsSoundCache};
ghost use Rattle.pg_messages.specs.declared.messages.WorldEvent.{WorldEvent};
ghost use Rattle.pg_controllers.specs.Worlds.{World, move, is_enabled};
ghost use Rattle.pg_orderly.specs.Orderly.{Mark};
ghost use Rattle.pg_safe.specs.Moving.{is_finished, IsComplete};
ghost use Rattle.pg_serial.specs.Serial.{accesses_of};
ghost use Rattle.pg_refined.specs.Operations.{MadeOf};
ghost use Rattle.pg_refined.specs.Kept.{IsRefined};
ghost use Rattle.pg_reached.specs.Reached.{IsReachedWorld};
ghost use Rattle.pg_runs.specs.Headline.{IsAtomicRun, IsRefinedWorld, serial_order};

/// Each enabled event keeps all that goes along a run.
pub fn events_keep_worlds_refined()
    ensures { (d : Draft) (t : List TableState) (given : List (List Op)) (w : World) (m : ℕ → Mark) (e : WorldEvent) → IsWellFormed d → IsShaped d → IsSoundCache d t
        → IsRefined d given w m → IsComplete t (length given) w → is_enabled (pick t) w e ≡ true → IsRefinedWorld d given (move d (pick t) w e) }
{}

/// The headline. In each world that is reached, the directory's order with the completed accesses placed in it is a run of the atomic machine, with each
/// core's accesses in its order.
pub fn reached_worlds_are_runs()
    ensures { (d : Draft) (t : List TableState) (given : List (List Op)) (w : World) → IsReachedWorld d t given w → IsAtomicRun d given w }
{}

/// In the serial order each load gives the word of the last store before it, or 0 where there is none.
pub fn loads_give_the_latest_store()
    ensures { (d : Draft) (t : List TableState) (given : List (List Op)) (w : World) (before after : List Step) (c v : ℕ) → IsReachedWorld d t given w
        → serial_order (length given) w ≡ before ++ taken.Load c v ∷ after → v ≡ last_word_stored before }
{}

/// In a finished world each core's accesses are those of all the operations that it was given.
pub fn finished_worlds_completed_all()
    ensures { (d : Draft) (t : List TableState) (given : List (List Op)) (w : World) (c : ℕ) → IsReachedWorld d t given w → c < length given
        → is_finished w ≡ true → MadeOf c (get_or given c []) (accesses_of c (serial_order (length given) w)) }
{}
