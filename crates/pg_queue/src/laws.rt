//! What the definitions of this crate give.

ghost use Rattle.pg_messages.specs.declared.messages.Ask.{Ask as SentRequest};
ghost use Rattle.pg_messages.specs.declared.messages.Ordered.{Ordered};
ghost use Rattle.pg_messages.specs.declared.messages.Reply.{Reply};
ghost use Rattle.pg_queue.specs.Nets.{
  Nets,
  empty_nets,
  ordered_count,
  spare,
  with_ordered,
  with_reply,
  with_request,
  without_head,
  without_reply,
  without_request,
};
ghost use Rattle.std.specs.Prelude.{◌≡◌, ◌≢◌, ◌<◌, ℕ, length, get_or, [], ◌∷◌, None, Some};

/// A request stands in the slot of its core alone, until it is taken.
pub fn requests_stand_in_their_slots()
    ensures sent { (c : ℕ) (a : SentRequest) (w : Nets) → c < length w.slots → get_or (with_request c a w).slots c None ≡ Some a }
    ensures taken { (c : ℕ) (w : Nets) → get_or (without_request c w).slots c None ≡ None }
    ensures others_sent { (c e : ℕ) (a : SentRequest) (w : Nets) → e ≢ c → get_or (with_request c a w).slots e None ≡ get_or w.slots e None }
    ensures others_taken { (c e : ℕ) (w : Nets) → e ≢ c → get_or (without_request c w).slots e None ≡ get_or w.slots e None }
{}

/// The messages to a core are taken in the order in which they were sent, and those to other cores stay as they are.
pub fn messages_to_a_core_keep_their_order()
    ensures first { (m : Ordered) → (with_ordered 1 m (empty_nets 2)).lists ≡ [] ∷ (m ∷ []) ∷ [] }
    ensures second { (m o : Ordered) → (with_ordered 1 o (with_ordered 1 m (empty_nets 2))).lists ≡ [] ∷ (m ∷ o ∷ []) ∷ [] }
    ensures taken { (m o : Ordered) → (without_head 1 (with_ordered 1 o (with_ordered 1 m (empty_nets 2)))).lists ≡ [] ∷ (o ∷ []) ∷ [] }
    ensures others_sent { (c e : ℕ) (m : Ordered) (w : Nets) → e ≢ c → get_or (with_ordered c m w).lists e [] ≡ get_or w.lists e [] }
    ensures others_taken { (c e : ℕ) (w : Nets) → e ≢ c → get_or (without_head c w).lists e [] ≡ get_or w.lists e [] }
{}

/// Any reply may be taken, and the others keep the order in which they were sent.
pub fn any_reply_may_be_taken()
    ensures sent { (x y z : Reply) → (with_reply z (with_reply y (with_reply x (empty_nets 1)))).replies ≡ x ∷ y ∷ z ∷ [] }
    ensures oldest { (x y z : Reply) → (without_reply 0 (with_reply z (with_reply y (with_reply x (empty_nets 1))))).replies ≡ y ∷ z ∷ [] }
    ensures middle { (x y z : Reply) → (without_reply 1 (with_reply z (with_reply y (with_reply x (empty_nets 1))))).replies ≡ x ∷ z ∷ [] }
    ensures latest { (x y z : Reply) → (without_reply 2 (with_reply z (with_reply y (with_reply x (empty_nets 1))))).replies ≡ x ∷ y ∷ [] }
{}

/// In a block of n cores there is room for n * n + 1 messages, requests aside, whether they are messages from the directory or replies.
pub fn messages_take_room()
    ensures one { spare (empty_nets 1) ≡ 2 }
    ensures many { spare (empty_nets 64) ≡ 4097 }
    ensures ordered { (m : Ordered) → spare (with_ordered 1 m (with_ordered 0 m (empty_nets 2))) ≡ 3 }
    ensures reply { (x : Reply) → spare (with_reply x (empty_nets 2)) ≡ 4 }
    ensures request { (a : SentRequest) → spare (with_request 0 a (empty_nets 2)) ≡ 5 }
    ensures count { (m : Ordered) → ordered_count ((m ∷ m ∷ []) ∷ [] ∷ (m ∷ []) ∷ []) ≡ 3 }
{}
