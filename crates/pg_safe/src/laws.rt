//! Laws on orderly worlds.

ghost use Rattle.std.specs.Prelude.{ℕ, suc, ◌≡◌, ◌≢◌, ◌+◌, ◌*◌, ◌<◌, ◌≤◌, true, false, cond, List, ◌∷◌, length, slice_get, Some};
ghost use Rattle.pg_perm.specs.declared.kinds.Op.{Op};
ghost use Rattle.pg_perm.specs.declared.kinds.Event.{Event};
ghost use Rattle.pg_perm.specs.declared.kinds.Perm.TheVariants as perm;
ghost use Rattle.pg_perm.specs.declared.draft.Draft.{Draft};
ghost use Rattle.pg_perm.specs.Drafts.{IsWellFormed};
ghost use Rattle.pg_shape.specs.Shaped.{IsShaped};
ghost use Rattle.pg_table.specs.declared.cache.Desc.TheVariants.{Stable};
ghost use Rattle.pg_table.specs.declared.cache.Input.TheVariants as at;
ghost use Rattle.pg_table.specs.declared.directory.DirInput.TheVariants as met;
ghost use Rattle.pg_table.specs.Tables.{TableState};
ghost use Rattle.pg_table.specs.Pick.{pick};
ghost use Rattle.pg_table.specs.Sound.{IsSoundCache};
ghost use Rattle.pg_messages.specs.declared.messages.Ordered.{Ordered};
ghost use Rattle.pg_order.specs.Messages.{stamp_of, tally};
ghost use Rattle.pg_order.specs.Orders.{acks_needed};
ghost use Rattle.pg_messages.specs.declared.messages.Ask.{Ask};
ghost use Rattle.pg_messages.specs.declared.messages.Reply.TheVariants.{Data, InvAck, WbData};
ghost use Rattle.pg_controllers.specs.Networks.{Core};
ghost use Rattle.pg_controllers.specs.Lines.{ordered_input, reply_input};
ghost use Rattle.pg_controllers.specs.Directories.{is_busy, dir_entry_of, dir_input};
ghost use Rattle.pg_messages.specs.declared.messages.WorldEvent.{WorldEvent};
ghost use Rattle.pg_messages.specs.declared.messages.WorldEvent.TheVariants.{Ordered as Ordered_to};
ghost use Rattle.pg_controllers.specs.Worlds.{Picks, World, core, order_of, move, is_enabled};
ghost use Rattle.pg_controllers.specs.Runs.{opening, replay, AreEnabled};
ghost use Rattle.pg_orderly.specs.Orderly.{Mark, is_pending, is_storing, is_ack_to, IsOrderly};
ghost use Rattle.pg_controllers.specs.Usable.{usable};
ghost use Rattle.pg_safe.specs.Moving.{is_settled, is_finished, CanMove, ArePicked, IsComplete, IsThrough, KeepsOrderly};
ghost use Rattle.pg_safe.specs.Invs.{invs_at, open_shares};
ghost use Rattle.pg_safe.specs.Standing.{IsPendingEntry};
ghost use Rattle.pg_safe.specs.OneRow.{HasOneRow, HasDirState, HasDirRow};
ghost use Rattle.pg_safe.specs.Work.{total, operation_work, work};
ghost use Rattle.pg_safe.specs.Worked.{Events, PutOffShare, Invalidations};

/// Where a core may write, no other may read or write.
pub fn writers_are_single()
    ensures { (d : Draft) (n : ℕ) (w : World) (m : ℕ → Mark) (c e : ℕ) → IsWellFormed d → IsShaped d → IsOrderly d n w m → c < n → e < n → e ≢ c
        → usable d (core w c).line.desc ≡ perm.Write → usable d (core w e).line.desc ≡ perm.None }
{}

/// Each operation of a line at rest, each head of a queue and each reply has one row in each sound table; so has each request while the directory isn't busy,
/// and what is written back.
pub fn nothing_lacks_its_row()
    ensures operation { (d : Draft) (t : List TableState) (n : ℕ) (w : World) (c s : ℕ) (e : Event) → IsWellFormed d → IsShaped d → IsSoundCache d t → IsComplete t n w → c < n
        → (core w c).line.desc ≡ Stable s → HasOneRow t (core w c).line.desc (at.Core e) }
    ensures head { (d : Draft) (t : List TableState) (n : ℕ) (w : World) (m : ℕ → Mark) (c : ℕ) (q : Ordered) (ms : List Ordered) → IsWellFormed d → IsShaped d → IsSoundCache d t
        → IsOrderly d n w m → IsComplete t n w → c < n → (core w c).queue ≡ q ∷ ms → HasOneRow t (core w c).line.desc (ordered_input (core w c).line q) }
    ensures data { (d : Draft) (t : List TableState) (n : ℕ) (w : World) (m : ℕ → Mark) (i r c v cnt k : ℕ) → IsWellFormed d → IsShaped d → IsSoundCache d t → IsOrderly d n w m
        → IsComplete t n w → slice_get w.replies i ≡ Some (Data r c v cnt k) → (c < n) × HasOneRow t (core w c).line.desc (reply_input (core w c).line (Data r c v cnt k)) }
    ensures acks { (d : Draft) (t : List TableState) (n : ℕ) (w : World) (m : ℕ → Mark) (i c k : ℕ) → IsWellFormed d → IsShaped d → IsSoundCache d t → IsOrderly d n w m
        → IsComplete t n w → slice_get w.replies i ≡ Some (InvAck c k) → (c < n) × HasOneRow t (core w c).line.desc (reply_input (core w c).line (InvAck c k)) }
    ensures written_back { (d : Draft) (n : ℕ) (w : World) (m : ℕ → Mark) (i v k : ℕ) → IsOrderly d n w m → HasDirState d w → slice_get w.replies i ≡ Some (WbData v k)
        → HasDirRow d w.directory.desc met.Wb }
    ensures asked { (d : Draft) (n : ℕ) (w : World) (m : ℕ → Mark) (c : ℕ) (a : Ask) → IsWellFormed d → IsShaped d → IsOrderly d n w m → HasDirState d w → c < n → (core w c).slot ≡ Some a
        → is_busy w.directory.desc ≡ false → HasDirRow d w.directory.desc (dir_input w.directory.desc (dir_entry_of w.directory) (record { core = c; event = a.event })) }
{}

/// Where something is under way, an event that begins no operation is enabled; and where anything is left, some event is.
pub fn worlds_are_never_stuck()
    ensures unsettled { (d : Draft) (t : List TableState) (n : ℕ) (w : World) (m : ℕ → Mark) → IsWellFormed d → IsShaped d → IsSoundCache d t → IsOrderly d n w m → IsComplete t n w
        → is_settled w ≡ false → CanMove (pick t) w }
    ensures unfinished { (d : Draft) (t : List TableState) (n : ℕ) (w : World) (m : ℕ → Mark) → IsWellFormed d → IsShaped d → IsSoundCache d t → IsOrderly d n w m → IsComplete t n w
        → is_finished w ≡ false → (e : WorldEvent) × (is_enabled (pick t) w e ≡ true) }
{}

/// Of the heads of the queues only one that is later than the operation of its pending core may be let wait.
pub fn only_later_heads_wait()
    ensures { (d : Draft) (t : List TableState) (n : ℕ) (w : World) (m : ℕ → Mark) (c : ℕ) (q : Ordered) (ms : List Ordered) → IsWellFormed d → IsShaped d → IsSoundCache d t
        → IsOrderly d n w m → IsComplete t n w → c < n → (core w c).queue ≡ q ∷ ms → (is_pending (core w c) ≡ true → stamp_of q ≤ (m c).last)
        → is_enabled (pick t) w (Ordered_to c) ≡ true }
{}

/// A pending operation stands in the order as its core's last entry. For a store the acknowledgements that it needs are those that it has got, those in
/// flight to it, and the invalidations of its stamp in the queues; before it stands there it has none.
pub fn acknowledgements_add_up()
    ensures stands { (d : Draft) (n : ℕ) (w : World) (m : ℕ → Mark) (c : ℕ) → IsOrderly d n w m → c < n → is_pending (core w c) ≡ true
        → (j : ℕ) × ((m c).last ≡ suc j) × IsPendingEntry d w c j }
    ensures sum { (d : Draft) (n : ℕ) (w : World) (m : ℕ → Mark) (c : ℕ) → IsWellFormed d → IsShaped d → IsOrderly d n w m → c < n → is_pending (core w c) ≡ true
        → is_storing (core w c).line.desc ≡ true → (j : ℕ) × IsPendingEntry d w c j
        × (acks_needed ((order_of d w).dir_entry j) ((order_of d w).at j) ≡ (core w c).line.got + tally (is_ack_to c) w.replies + invs_at d (suc j) w) }
    ensures none { (d : Draft) (n : ℕ) (w : World) (m : ℕ → Mark) (c : ℕ) → IsOrderly d n w m → c < n → is_pending (core w c) ≡ false
        → ((core w c).line.got ≡ 0) × (tally (is_ack_to c) w.replies ≡ 0) }
{}

/// The directory is busy exactly while one share is under way: in a queue, put off, or written back. There is never more than one.
pub fn busy_while_one_share_is_open()
    ensures { (d : Draft) (n : ℕ) (w : World) (m : ℕ → Mark) → IsWellFormed d → IsShaped d → IsOrderly d n w m → open_shares d w ≡ cond (is_busy w.directory.desc) 1 0 }
{}

/// Where each event keeps worlds orderly, no run is longer than its operations allow.
pub fn runs_are_bounded()
    ensures { (d : Draft) (t : List TableState) (given : List (List Op)) (es : List (ℕ × WorldEvent)) → IsWellFormed d → IsShaped d → IsSoundCache d t → KeepsOrderly d t (length given)
        → AreEnabled d (pick t) (opening d given) es
        → length (replay d (pick t) (opening d given) es).journal + work d (length given) (replay d (pick t) (opening d given) es)
        ≤ total (total (operation_work (length given))) given }
{}

/// A core with no operation left, whose line is at rest, stays so.
pub fn cores_stay_through()
    ensures { (d : Draft) (n : ℕ) (p : Picks) (w : World) (e : WorldEvent) (c : ℕ) → ArePicked d p n w → length w.cores ≡ n → c < n → IsThrough w c → IsThrough (move d p w e) c }
{}

/// Each event that is enabled lowers the work that is left.
pub fn events_lower_the_work()
    ensures { (d : Draft) (t : List TableState) (n : ℕ) (w : World) (m : ℕ → Mark) (e : WorldEvent) → IsWellFormed d → IsShaped d → IsSoundCache d t → IsOrderly d n w m → IsComplete t n w
        → is_enabled (pick t) w e ≡ true → work d n (move d (pick t) w e) < work d n w }
{}

/// The queues and the replies hold no more than n * n + 1 messages, and a core has put off fewer forwards than there are cores.
pub fn networks_are_bounded()
    ensures networks { (d : Draft) (n : ℕ) (w : World) (m : ℕ → Mark) → IsWellFormed d → IsShaped d → IsOrderly d n w m
        → total (λ (x : Core). length x.queue) w.cores + length w.replies ≤ n * n + 1 }
    ensures deferred { (d : Draft) (n : ℕ) (w : World) (m : ℕ → Mark) (c : ℕ) → IsWellFormed d → IsShaped d → IsOrderly d n w m → c < n → length (core w c).line.deferred + 1 ≤ n }
{}

/// What small worlds have under way and left, as a person works it out.
pub fn worked_worlds()
    ensures events { Events }
    ensures put_off { PutOffShare }
    ensures invalidations { Invalidations }
{}
