//! Laws on the calls of lines and of the directory, and on the order and the completed accesses of a world.

ghost use Rattle.std.specs.Prelude.{ℕ, ◌≡◌, ◌+◌, ◌<◌, ◌≤◌, true, List, ◌∷◌, length, get_or, slice_get, Some, None, is_some, IsSome};
ghost use Rattle.pg_perm.specs.declared.kinds.Op.{Op};
ghost use Rattle.pg_perm.specs.declared.draft.Draft.{Draft};
ghost use Rattle.pg_perm.specs.Drafts.{IsWellFormed};
ghost use Rattle.pg_shape.specs.Shaped.{IsShaped};
ghost use Rattle.pg_table.specs.declared.cache.Input.TheVariants as at;
ghost use Rattle.pg_table.specs.Tables.{Parts, TableState};
ghost use Rattle.pg_table.specs.Pick.{pick};
ghost use Rattle.pg_table.specs.Sound.{IsSoundCache};
ghost use Rattle.pg_messages.specs.declared.messages.Ask.{Ask};
ghost use Rattle.pg_messages.specs.declared.messages.Ordered.{Ordered};
ghost use Rattle.pg_messages.specs.declared.messages.Reply.TheVariants.{Data, InvAck, WbData};
ghost use Rattle.pg_messages.specs.declared.messages.WorldEvent.TheVariants.{Issue, Request as Request_of, Ordered as Ordered_to, Reply as Reply_at};
ghost use Rattle.pg_order.specs.Messages.{tally};
ghost use Rattle.pg_controllers.specs.Networks.{Core, event_of};
ghost use Rattle.pg_controllers.specs.Directories.{is_busy};
ghost use Rattle.pg_controllers.specs.Lines.{ordered_input, reply_input, received_op, received_ordered, received_reply};
ghost use Rattle.pg_controllers.specs.Worlds.{World, core, is_enabled};
ghost use Rattle.pg_orderly.specs.Orderly.{Mark, IsOrderly};
ghost use Rattle.pg_safe.specs.Moving.{IsComplete};
ghost use Rattle.pg_safe.specs.Work.{total};
ghost use Rattle.pg_reached.specs.Reached.{IsReachedWorld};
ghost use Rattle.pg_queue.specs.Nets.{without_request, without_head, without_reply};
ghost use Rattle.pg_cache.specs.Rows.{IsReady};
ghost use Rattle.pg_dir.specs.Effects.{choice_by, HasRoomFor};
ghost use Rattle.pg_ready.specs.WorldViews.{nets_of, line_of};

/// In an orderly world of at most 64 cores, whose lines are in states of a sound table, each line is ready for what an enabled event brings it: its core's
/// next operation, for which the slot is empty, the head of its list, or a reply, once the message was taken from the networks.
pub fn lines_are_ready()
    ensures operation { (t : Parts) (n : ℕ) (w : World) (m : ℕ → Mark) (c : ℕ) (o : Op) (os : List Op) → IsWellFormed t.protocol → IsShaped t.protocol → IsSoundCache t.protocol t.cache
        → n ≤ 64 → IsOrderly t.protocol n w m → IsComplete t.cache n w → c < n → (core w c).left ≡ o ∷ os → is_enabled (pick t.cache) w (Issue c) ≡ true
        → IsReady t (at.Core (event_of o)) (received_op (core w c).line o) (line_of t.cache n w c) (nets_of w) }
    ensures slot { (t : Parts) (n : ℕ) (w : World) (m : ℕ → Mark) (c : ℕ) → IsOrderly t.protocol n w m → c < n → is_enabled (pick t.cache) w (Issue c) ≡ true
        → get_or (nets_of w).slots c None ≡ None }
    ensures head { (t : Parts) (n : ℕ) (w : World) (m : ℕ → Mark) (c : ℕ) (q : Ordered) (qs : List Ordered) → IsWellFormed t.protocol → IsShaped t.protocol → IsSoundCache t.protocol t.cache
        → n ≤ 64 → IsOrderly t.protocol n w m → IsComplete t.cache n w → c < n → (core w c).queue ≡ q ∷ qs → is_enabled (pick t.cache) w (Ordered_to c) ≡ true
        → IsReady t (ordered_input (core w c).line q) (received_ordered (core w c).line q) (line_of t.cache n w c) (without_head c (nets_of w)) }
    ensures data { (t : Parts) (n : ℕ) (w : World) (m : ℕ → Mark) (i r c v acks k : ℕ) → IsWellFormed t.protocol → IsShaped t.protocol → IsSoundCache t.protocol t.cache
        → n ≤ 64 → IsOrderly t.protocol n w m → IsComplete t.cache n w → slice_get w.replies i ≡ Some (Data r c v acks k) → is_enabled (pick t.cache) w (Reply_at i) ≡ true
        → (c < n) × IsReady t (reply_input (core w c).line (Data r c v acks k)) (received_reply t.protocol (core w c).line (Data r c v acks k)) (line_of t.cache n w c) (without_reply i (nets_of w)) }
    ensures ack { (t : Parts) (n : ℕ) (w : World) (m : ℕ → Mark) (i c k : ℕ) → IsWellFormed t.protocol → IsShaped t.protocol → IsSoundCache t.protocol t.cache
        → n ≤ 64 → IsOrderly t.protocol n w m → IsComplete t.cache n w → slice_get w.replies i ≡ Some (InvAck c k) → is_enabled (pick t.cache) w (Reply_at i) ≡ true
        → (c < n) × IsReady t (reply_input (core w c).line (InvAck c k)) (received_reply t.protocol (core w c).line (InvAck c k)) (line_of t.cache n w c) (without_reply i (nets_of w)) }
{}

/// In an orderly world whose lines are in states of a sound table, the directory is ready for each request that an enabled event brings it: it has a row for
/// it, and the networks have room for what it sends once the request was taken from its slot. While data that an owner writes back is on its way, the
/// directory waits for it.
pub fn the_directory_is_ready()
    ensures row { (t : Parts) (n : ℕ) (w : World) (m : ℕ → Mark) (c : ℕ) (a : Ask) → IsWellFormed t.protocol → IsShaped t.protocol → IsSoundCache t.protocol t.cache
        → IsOrderly t.protocol n w m → IsComplete t.cache n w → (core w c).slot ≡ Some a → is_enabled (pick t.cache) w (Request_of c) ≡ true
        → IsSome (choice_by t.protocol w.directory c a) }
    ensures room { (t : Parts) (n : ℕ) (w : World) (m : ℕ → Mark) (c : ℕ) (a : Ask) → IsWellFormed t.protocol → IsShaped t.protocol → IsSoundCache t.protocol t.cache
        → IsOrderly t.protocol n w m → IsComplete t.cache n w → c < n → (core w c).slot ≡ Some a → is_enabled (pick t.cache) w (Request_of c) ≡ true
        → HasRoomFor t.protocol w.directory c a (without_request c (nets_of w)) }
    ensures written_back { (d : Draft) (n : ℕ) (w : World) (m : ℕ → Mark) (i v k : ℕ) → IsOrderly d n w m → slice_get w.replies i ≡ Some (WbData v k)
        → is_busy w.directory.desc ≡ true }
{}

/// The order and the completed accesses of a reached world are no longer than its journal, and the directory's last stamp is the number of requests that it has
/// handled.
pub fn lists_are_no_longer_than_the_journal()
    ensures order { (d : Draft) (t : List TableState) (given : List (List Op)) (w : World) → IsReachedWorld d t given w → length w.order ≤ length w.journal }
    ensures done { (d : Draft) (t : List TableState) (given : List (List Op)) (w : World) → IsReachedWorld d t given w → length w.done ≤ length w.journal }
    ensures stamp { (d : Draft) (t : List TableState) (given : List (List Op)) (w : World) → IsReachedWorld d t given w → w.directory.last ≡ length w.order }
{}

/// Each request that the directory has handled or that waits in a slot, and each operation that isn't begun, was given to a core; and so was each access that
/// is completed or pending, and each operation that isn't begun. So the order and the completed accesses are no longer than the operations that were given.
pub fn lists_are_no_longer_than_the_operations()
    ensures order { (d : Draft) (t : List TableState) (given : List (List Op)) (w : World) → IsReachedWorld d t given w
        → length w.order + tally (λ (x : Core). is_some x.slot) w.cores + total (λ (x : Core). length x.left) w.cores ≤ total (λ (os : List Op). length os) given }
    ensures done { (d : Draft) (t : List TableState) (given : List (List Op)) (w : World) → IsReachedWorld d t given w
        → length w.done + tally (λ (x : Core). is_some x.line.pending) w.cores + total (λ (x : Core). length x.left) w.cores ≤ total (λ (os : List Op). length os) given }
{}
