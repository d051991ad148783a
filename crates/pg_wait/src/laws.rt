//! What the definitions of this crate give.

ghost use Rattle.pg_messages.specs.declared.messages.Ordered.{Ordered};
ghost use Rattle.pg_wait.specs.Waits.{
  AckState,
  AreAllGot,
  is_next_last,
  no_acks,
  none_deferred,
  with_ack,
  with_deferred,
  with_need,
};
ghost use Rattle.std.specs.Prelude.{ℕ, ◌≡◌, ◌↔◌, [], ◌∷◌, true, None};

/// Acknowledgements and their number come in any order. All are got exactly where as many came as are needed, and never
/// before the number is known.
pub fn acknowledgements_are_got_or_missing()
    ensures any_order { (a : AckState) (n : ℕ) → with_need n (with_ack a) ≡ with_ack (with_need n a) }
    ensures unknown { (a : AckState) → a.need ≡ None → AreAllGot a → ⊥ }
    ensures unasked { AreAllGot no_acks → ⊥ }
    ensures last { (a : AckState) → (is_next_last a ≡ true) ↔ AreAllGot (with_ack a) }
    ensures none { AreAllGot (with_need 0 no_acks) }
    ensures two { AreAllGot (with_need 2 (with_ack (with_ack no_acks))) }
    ensures missing { AreAllGot (with_need 2 (with_ack no_acks)) → ⊥ }
    ensures early { AreAllGot (with_ack (with_need 0 no_acks)) → ⊥ }
{}

/// Forwards are deferred in the order in which they came, and the room for them stays.
pub fn forwards_are_deferred_in_order()
    ensures none { (room : ℕ) → (none_deferred room).items ≡ [] }
    ensures two { (room : ℕ) (one two : Ordered) → (with_deferred two (with_deferred one (none_deferred room))).items ≡ one ∷ two ∷ [] }
    ensures room { (room : ℕ) (one : Ordered) → (with_deferred one (none_deferred room)).room ≡ room }
{}
