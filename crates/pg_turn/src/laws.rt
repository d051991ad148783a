//! The laws on entries and their makers, and on what the rule of a turn says at any moment.

ghost use Rattle.std.specs.Prelude.{ℕ, ◌≡◌, ◌<◌, ◌+◌, ◌*◌, ◌%◌, ◌↔◌, Bool, true, false, List, [], ◌∷◌, length, drop, take, slice_index, Option, Some};
ghost use Rattle.std.specs.List.{All, AllPass};
ghost use mathlib.Core.Option.{some};
ghost use lib.ListN.{get_elem?};
ghost use Rattle.atomic_table.specs.Table.{State};
ghost use Rattle.pg_turn.specs.declared.view.Past.{Past};
ghost use Rattle.pg_turn.specs.declared.view.View.{View};
ghost use Rattle.pg_turn.specs.Entries.{StartsWith, by, Names};
ghost use Rattle.pg_turn.specs.Views.{Tells, past_of};
ghost use Rattle.pg_turn.specs.Rule.{InOrder};

use crate::kept::Kept;

/// What the words on entries mean: a beginning is what the first entries are, and entries are named by all that they are.
pub fn entries_by_maker<T: Kept>()
    ensures begins { (log seen : List T.Entry) → StartsWith log seen ↔ (take (length seen) log ≡ seen) }
    ensures named { (n : ℕ) (es : List T.Entry) → Names T.maker n es ↔ All (λ e. T.maker e ≡ n) es }
{}

/// What holds of the new entries that each pass made holds of all new entries, if each names one of the passes.
pub fn new_entries_of_all<T: Kept>()
    ensures { (p : T.Entry → Bool) (n : ℕ) (base log : List T.Entry) → StartsWith log base → All (λ e. T.maker e < n) (drop (length base) log)
        → ((k : ℕ) → k < n → AllPass p (drop (length (by T.maker k base)) (by T.maker k log))) → AllPass p (drop (length base) log) }
{}

/// The rule at any moment: at most one pass holds the value; while one does, the word is odd, and half of it is the number of entries that this pass has
/// seen; while the word is even, the value is in its slot, with the root, and all that a pass knows is true of its entries.
pub fn in_order_at_any_moment<T: Kept>()
    ensures one_holder { (first : T) (seats : ℕ) (s : State (Option T) (View T T.Entry)) → InOrder T.entries T.root T.maker first seats s
        → (j k : ℕ) (u v : View T T.Entry) → get_elem? s.views j ≡ some u → get_elem? s.views k ≡ some v → u.live ≡ true → v.live ≡ true
        → u.holds ≡ true → v.holds ≡ true → j ≡ k }
    ensures odd { (first : T) (seats : ℕ) (s : State (Option T) (View T T.Entry)) → InOrder T.entries T.root T.maker first seats s
        → (k : ℕ) (v : View T T.Entry) → get_elem? s.views k ≡ some v → v.live ≡ true → v.holds ≡ true → s.words ≡ (2 * length v.own.seen + 1) ∷ [] }
    ensures even { (first : T) (seats : ℕ) (s : State (Option T) (View T T.Entry)) → InOrder T.entries T.root T.maker first seats s
        → slice_index s.words 0 % 2 ≡ 0
        → (value : T) × (get_elem? s.homes 0 ≡ some (some (Some value))) × (slice_index s.words 0 ≡ 2 * length (T.entries value)) × (T.root value ≡ T.root first)
        × ((k : ℕ) (v : View T T.Entry) → get_elem? s.views k ≡ some v → v.live ≡ true → Tells T.maker (T.entries value) v.own) }
{}

/// Entries of which each is its maker and a number: those by each maker in their order, and what a pass of number 1 tells that has seen three of four.
pub fn small_logs()
    ensures first { by (λ (e : ℕ × ℕ). e.0) 0 ((0, 5) ∷ (1, 6) ∷ (0, 7) ∷ (1, 8) ∷ []) ≡ (0, 5) ∷ (0, 7) ∷ [] }
    ensures second { by (λ (e : ℕ × ℕ). e.0) 1 ((0, 5) ∷ (1, 6) ∷ (0, 7) ∷ (1, 8) ∷ []) ≡ (1, 6) ∷ (1, 8) ∷ [] }
    ensures none { by (λ (e : ℕ × ℕ). e.0) 2 ((0, 5) ∷ (1, 6) ∷ []) ≡ [] }
    ensures past { past_of (λ (e : ℕ × ℕ). e.0) 1 ((0, 5) ∷ (1, 6) ∷ []) ≡ record { number = 1; seen = (0, 5) ∷ (1, 6) ∷ []; mine = (1, 6) ∷ [] } }
    ensures tells { (p : Past (ℕ × ℕ)) → Tells (λ e. e.0) ((0, 5) ∷ (1, 6) ∷ (0, 7) ∷ (1, 8) ∷ []) p → p.number ≡ 1 → p.mine ≡ (1, 6) ∷ (1, 8) ∷ [] }
    ensures begins { (p : Past (ℕ × ℕ)) → Tells (λ e. e.0) ((0, 5) ∷ (1, 6) ∷ []) p → length p.seen ≡ 1 → p.seen ≡ (0, 5) ∷ [] }
{}
