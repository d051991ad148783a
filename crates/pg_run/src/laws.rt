//! The laws of schedules.

ghost use Rattle.std.specs.Prelude.{ℕ, true, ◌≡◌, ◌+◌, ◌-◌, ◌%◌, ◌<◌, List, [], length, Option, Some, None, slice_get};
ghost use Rattle.std.specs.List.{All};
ghost use Rattle.pg_perm.specs.declared.kinds.Op.{Op};
ghost use Rattle.pg_perm.specs.declared.draft.Draft.{Draft};
ghost use Rattle.pg_table.specs.Tables.{TableState};
ghost use Rattle.pg_table.specs.Pick.{pick};
ghost use Rattle.pg_controllers.specs.Worlds.{Picks, World, is_enabled};
ghost use Rattle.pg_safe.specs.Moving.{is_finished};
ghost use Rattle.pg_world.specs.Enabled.{enabled_events};
ghost use Rattle.pg_run.specs.Schedules.{Turn, block, draws_of, draw, drawn_pick, next_turn, after_turn, work_of, drained, scheduled, AreReached};

/// What a schedule picks is an enabled event of a block, after which each block is still reached and less work is left; and it picks nothing only where no
/// block has an enabled event.
pub fn every_turn_happens()
    ensures enabled { (d : Draft) (p : Picks) (ws : List World) (k : ℕ) (t : Turn) → next_turn d p ws k ≡ Some t
        → (t.block < length ws) × (is_enabled p (block d ws t.block) t.event ≡ true) }
    ensures reached { (d : Draft) (t : List TableState) (given : List (List (List Op))) (ws : List World) (k : ℕ) (u : Turn) → AreReached d t given ws
        → next_turn d (pick t) ws k ≡ Some u → AreReached d t given (after_turn d (pick t) ws u) }
    ensures work { (d : Draft) (t : List TableState) (given : List (List (List Op))) (ws : List World) (k : ℕ) (u : Turn) → AreReached d t given ws
        → next_turn d (pick t) ws k ≡ Some u → work_of d (after_turn d (pick t) ws u) < work_of d ws }
    ensures none { (d : Draft) (p : Picks) (ws : List World) (k : ℕ) → next_turn d p ws k ≡ None → All (λ w. enabled_events p w ≡ []) ws }
{}

/// The picks of the seeds 0 and 1. A pick takes the event at it, modulo their number, of the block that is the fewest steps after it, modulo the number of
/// blocks, around the circle: those that are fewer steps away have no enabled event.
pub fn turns_follow_picks()
    ensures zero { (draw (draws_of 0) ≡ draws_of 0) × (drawn_pick (draw (draws_of 0)) ≡ 0) }
    ensures one { drawn_pick (draw (draws_of 1)) ≡ 908834774 }
    ensures event { (d : Draft) (p : Picks) (ws : List World) (k : ℕ) (t : Turn) → next_turn d p ws k ≡ Some t
        → slice_get (enabled_events p (block d ws t.block)) (k % length (enabled_events p (block d ws t.block))) ≡ Some t.event }
    ensures block { (d : Draft) (p : Picks) (ws : List World) (k i : ℕ) (t : Turn) → next_turn d p ws k ≡ Some t → i < length ws
        → (i + length ws - k % length ws) % length ws < (t.block + length ws - k % length ws) % length ws → enabled_events p (block d ws i) ≡ [] }
{}

/// A schedule is its turns, one after another, until there is none.
pub fn schedules_take_turns()
    ensures turn { (d : Draft) (t : List TableState) (given : List (List (List Op))) (ws : List World) (x : Option ℕ) (u : Turn) → AreReached d t given ws
        → next_turn d (pick t) ws (drawn_pick (draw x)) ≡ Some u → drained d (pick t) x ws ≡ drained d (pick t) (draw x) (after_turn d (pick t) ws u) }
    ensures end { (d : Draft) (p : Picks) (ws : List World) (x : Option ℕ) → next_turn d p ws (drawn_pick (draw x)) ≡ None → drained d p x ws ≡ ws }
{}

/// After the schedule of a seed no block has an enabled event, and each is finished.
pub fn schedules_end()
    ensures events { (d : Draft) (t : List TableState) (given : List (List (List Op))) (ws : List World) (seed : ℕ) → AreReached d t given ws
        → All (λ w. enabled_events (pick t) w ≡ []) (scheduled d (pick t) seed ws) }
    ensures finished { (d : Draft) (t : List TableState) (given : List (List (List Op))) (ws : List World) (seed : ℕ) → AreReached d t given ws
        → All (λ w. is_finished w ≡ true) (scheduled d (pick t) seed ws) }
{}

/// A schedule leads each block to a world that is reached from its own operations.
pub fn schedules_keep_blocks_reached()
    ensures { (d : Draft) (t : List TableState) (given : List (List (List Op))) (ws : List World) (seed : ℕ) → AreReached d t given ws
        → AreReached d t given (scheduled d (pick t) seed ws) }
{}
