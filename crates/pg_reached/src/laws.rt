//! The laws.

ghost use Rattle.std.specs.Prelude.{ℕ, suc, true, false, cond, ◌≡◌, ◌≢◌, ◌+◌, ◌*◌, ◌<◌, ◌≤◌, ◌↔◌, List, ◌∷◌, length, map, slice_get, is_none, Some};
ghost use Rattle.pg_perm.specs.declared.kinds.Event.{Event};
ghost use Rattle.pg_perm.specs.declared.kinds.Op.{Op};
ghost use Rattle.pg_perm.specs.declared.kinds.Perm.TheVariants as perm;
ghost use Rattle.pg_perm.specs.declared.draft.Draft.{Draft};
ghost use Rattle.pg_perm.specs.Drafts.{IsWellFormed};
ghost use Rattle.pg_shape.specs.Shaped.{IsShaped};
ghost use Rattle.pg_directory.specs.DirEntries.{initial_entry, entry_after_all};
ghost use Rattle.pg_table.specs.declared.cache.Desc.TheVariants.{Stable};
ghost use Rattle.pg_table.specs.declared.cache.Input.TheVariants as at;
ghost use Rattle.pg_table.specs.declared.directory.DirInput.TheVariants as met;
ghost use Rattle.pg_table.specs.Tables.{TableState};
ghost use Rattle.pg_table.specs.Pick.{pick};
ghost use Rattle.pg_table.specs.Sound.{IsSoundCache};
ghost use Rattle.pg_messages.specs.declared.messages.Ask.{Ask};
ghost use Rattle.pg_messages.specs.declared.messages.Ordered.{Ordered};
ghost use Rattle.pg_messages.specs.declared.messages.Reply.{Reply};
ghost use Rattle.pg_messages.specs.declared.messages.Reply.TheVariants.{Data, InvAck, WbData};
ghost use Rattle.pg_messages.specs.declared.messages.WorldEvent.{WorldEvent};
ghost use Rattle.pg_messages.specs.declared.messages.WorldEvent.TheVariants.{Ordered as Ordered_to};
ghost use Rattle.pg_order.specs.Messages.{stamp_of, tally};
ghost use Rattle.pg_order.specs.Orders.{acks_needed};
ghost use Rattle.pg_controllers.specs.Networks.{Core};
ghost use Rattle.pg_controllers.specs.Directories.{is_busy, dir_entry_of, dir_input};
ghost use Rattle.pg_controllers.specs.Lines.{ordered_input, reply_input};
ghost use Rattle.pg_controllers.specs.Worlds.{World, core, order_of, request_in, step, is_stable, waits, is_enabled, can_happen};
ghost use Rattle.pg_controllers.specs.Runs.{opening};
ghost use Rattle.pg_orderly.specs.Orderly.{is_pending, is_storing, is_ack_to};
ghost use Rattle.pg_controllers.specs.Usable.{usable};
ghost use Rattle.pg_safe.specs.Moving.{is_settled, is_finished, is_issue, IsThrough};
ghost use Rattle.pg_safe.specs.Invs.{invs_at, open_shares};
ghost use Rattle.pg_safe.specs.Names.{names};
ghost use Rattle.pg_safe.specs.Standing.{IsPendingEntry};
ghost use Rattle.pg_safe.specs.OneRow.{HasOneRow, HasDirRow};
ghost use Rattle.pg_safe.specs.Work.{total, operation_work, work};
ghost use Rattle.pg_moves.specs.Kept.{IsSoundWorld};
ghost use Rattle.pg_reached.specs.Reached.{IsReachedWorld};

/// The opening is reached.
pub fn openings_are_reached()
    ensures { (d : Draft) (t : List TableState) (given : List (List Op)) → IsWellFormed d → IsShaped d → IsSoundCache d t
        → IsReachedWorld d t given (opening d given) }
{}

/// Each event that is enabled has its row: it can happen.
pub fn enabled_events_can_happen()
    ensures { (d : Draft) (t : List TableState) (given : List (List Op)) (w : World) (e : WorldEvent) → IsReachedWorld d t given w
        → is_enabled (pick t) w e ≡ true → can_happen d (pick t) w e ≡ true }
{}

/// An enabled event leads to a world that is reached, whoever made it.
pub fn steps_lead_to_reached_worlds()
    ensures { (d : Draft) (t : List TableState) (given : List (List Op)) (w : World) (e : ℕ × WorldEvent) → IsReachedWorld d t given w
        → is_enabled (pick t) w e.1 ≡ true → IsReachedWorld d t given (step d (pick t) w e) }
{}

/// Each world that is reached is orderly (docs/MODEL.md), and its lines and its directory are in states of their tables.
pub fn reached_worlds_are_orderly()
    ensures { (d : Draft) (t : List TableState) (given : List (List Op)) (w : World) → IsReachedWorld d t given w
        → IsSoundWorld d t (length given) w }
{}

/// Single writer: where a core may write, no other core may read or write.
pub fn reached_worlds_have_a_single_writer()
    ensures { (d : Draft) (t : List TableState) (given : List (List Op)) (w : World) (c e : ℕ) → IsReachedWorld d t given w
        → c < length given → e < length given → e ≢ c
        → usable d (core w c).line.desc ≡ perm.Write → usable d (core w e).line.desc ≡ perm.None }
{}

/// Whatever may come has exactly one row in the state that it meets: the next operation of a stable line, the head of each queue, each reply, and each
/// request.
pub fn each_delivery_has_one_row()
    ensures operation { (d : Draft) (t : List TableState) (given : List (List Op)) (w : World) (c s : ℕ) (e : Event) → IsReachedWorld d t given w
        → c < length given → (core w c).line.desc ≡ Stable s → HasOneRow t (core w c).line.desc (at.Core e) }
    ensures head { (d : Draft) (t : List TableState) (given : List (List Op)) (w : World) (c : ℕ) (m : Ordered) (ms : List Ordered) → IsReachedWorld d t given w
        → c < length given → (core w c).queue ≡ m ∷ ms → HasOneRow t (core w c).line.desc (ordered_input (core w c).line m) }
    ensures data { (d : Draft) (t : List TableState) (given : List (List Op)) (w : World) (i r c v n k : ℕ) → IsReachedWorld d t given w
        → slice_get w.replies i ≡ Some (Data r c v n k)
        → (c < length given) × HasOneRow t (core w c).line.desc (reply_input (core w c).line (Data r c v n k)) }
    ensures acknowledgement { (d : Draft) (t : List TableState) (given : List (List Op)) (w : World) (i c k : ℕ) → IsReachedWorld d t given w
        → slice_get w.replies i ≡ Some (InvAck c k)
        → (c < length given) × HasOneRow t (core w c).line.desc (reply_input (core w c).line (InvAck c k)) }
    ensures written_back { (d : Draft) (t : List TableState) (given : List (List Op)) (w : World) (i v k : ℕ) → IsReachedWorld d t given w
        → slice_get w.replies i ≡ Some (WbData v k) → HasDirRow d w.directory.desc met.Wb }
    ensures request { (d : Draft) (t : List TableState) (given : List (List Op)) (w : World) (c : ℕ) (a : Ask) → IsReachedWorld d t given w
        → c < length given → (core w c).slot ≡ Some a
        → HasDirRow d w.directory.desc (dir_input w.directory.desc (dir_entry_of w.directory) (record { core = c; event = a.event })) }
{}

/// The head of a queue waits only at a core whose operation stands in the directory's order, and only if it was ordered after that operation. Neither an
/// operation nor a reply ever waits for its cache.
pub fn only_later_heads_wait()
    ensures operation { (d : Draft) (t : List TableState) (given : List (List Op)) (w : World) (c : ℕ) (e : Event) → IsReachedWorld d t given w
        → c < length given → waits (pick t (core w c).line.desc (at.Core e)) ≡ false }
    ensures reply { (d : Draft) (t : List TableState) (given : List (List Op)) (w : World) (c : ℕ) (m : Reply) → IsReachedWorld d t given w
        → c < length given → waits (pick t (core w c).line.desc (reply_input (core w c).line m)) ≡ false }
    ensures head { (d : Draft) (t : List TableState) (given : List (List Op)) (w : World) (c : ℕ) (m : Ordered) (ms : List Ordered) → IsReachedWorld d t given w
        → c < length given → (core w c).queue ≡ m ∷ ms → is_enabled (pick t) w (Ordered_to c) ≡ false
        → (j : ℕ) × IsPendingEntry d w c j × (suc j < stamp_of m) }
{}

/// A line has an operation outstanding until it is stable again.
pub fn lines_are_stable_when_done()
    ensures { (d : Draft) (t : List TableState) (given : List (List Op)) (w : World) (c : ℕ) → IsReachedWorld d t given w
        → c < length given → ((is_none (core w c).line.pending ≡ true) ↔ (is_stable (core w c).line.desc ≡ true)) }
{}

/// An operation that the directory has handled stands in its order as its core's last entry. The acknowledgements that a store needs are those that it has
/// got, those in flight to it, and the invalidations of its stamp that stand in queues. Before the directory has handled it there are none.
pub fn reached_acknowledgements_add_up()
    ensures entry { (d : Draft) (t : List TableState) (given : List (List Op)) (w : World) (c : ℕ) → IsReachedWorld d t given w
        → c < length given → is_pending (core w c) ≡ true → (j : ℕ) × IsPendingEntry d w c j }
    ensures sum { (d : Draft) (t : List TableState) (given : List (List Op)) (w : World) (c : ℕ) → IsReachedWorld d t given w
        → c < length given → is_pending (core w c) ≡ true → is_storing (core w c).line.desc ≡ true
        → (j : ℕ) × IsPendingEntry d w c j
        × (acks_needed ((order_of d w).dir_entry j) ((order_of d w).at j) ≡ (core w c).line.got + tally (is_ack_to c) w.replies + invs_at d (suc j) w) }
    ensures none { (d : Draft) (t : List TableState) (given : List (List Op)) (w : World) (c : ℕ) → IsReachedWorld d t given w
        → c < length given → is_pending (core w c) ≡ false → ((core w c).line.got ≡ 0) × (tally (is_ack_to c) w.replies ≡ 0) }
{}

/// Each message in flight belongs to a request that the directory has handled and whose core still waits: a forward to that of its requestor, any other to that
/// of its receiver; a write-back alone may outlive its reader's load. Its stamp is that of the request.
pub fn messages_name_pending_requests()
    ensures ordered { (d : Draft) (t : List TableState) (given : List (List Op)) (w : World) (c i : ℕ) (m : Ordered) → IsReachedWorld d t given w
        → c < length given → slice_get (core w c).queue i ≡ Some m → (j : ℕ) × IsPendingEntry d w (names c m) j × (stamp_of m ≡ suc j) }
    ensures data { (d : Draft) (t : List TableState) (given : List (List Op)) (w : World) (i r c v n k : ℕ) → IsReachedWorld d t given w
        → slice_get w.replies i ≡ Some (Data r c v n k) → (j : ℕ) × IsPendingEntry d w c j × (k ≡ suc j) }
    ensures acknowledgement { (d : Draft) (t : List TableState) (given : List (List Op)) (w : World) (i c k : ℕ) → IsReachedWorld d t given w
        → slice_get w.replies i ≡ Some (InvAck c k) → (is_storing (core w c).line.desc ≡ true) × ((j : ℕ) × IsPendingEntry d w c j) }
{}

/// What the directory knows is what its requests, one after another, make of what it knew at first. It is busy exactly while a share is under way, and there
/// is never more than one.
pub fn the_directory_is_that_of_its_requests()
    ensures entry { (d : Draft) (t : List TableState) (given : List (List Op)) (w : World) → IsReachedWorld d t given w
        → dir_entry_of w.directory ≡ entry_after_all d (initial_entry d) (map request_in w.order) }
    ensures busy { (d : Draft) (t : List TableState) (given : List (List Op)) (w : World) → IsReachedWorld d t given w
        → open_shares d w ≡ cond (is_busy w.directory.desc) 1 0 }
{}

/// For n cores, no more than n * n + 1 messages are ever in queues and replies, and no core puts off n forwards.
pub fn reached_networks_are_bounded()
    ensures messages { (d : Draft) (t : List TableState) (given : List (List Op)) (w : World) → IsReachedWorld d t given w
        → total (λ (x : Core). length x.queue) w.cores + length w.replies ≤ length given * length given + 1 }
    ensures deferred { (d : Draft) (t : List TableState) (given : List (List Op)) (w : World) (c : ℕ) → IsReachedWorld d t given w
        → c < length given → length (core w c).line.deferred < length given }
{}

/// Nothing is ever stuck: while something is under way a delivery can happen, and until everything is done some event can.
pub fn reached_worlds_are_never_stuck()
    ensures unsettled { (d : Draft) (t : List TableState) (given : List (List Op)) (w : World) → IsReachedWorld d t given w
        → is_settled w ≡ false → (e : WorldEvent) × (is_issue e ≡ false) × (can_happen d (pick t) w e ≡ true) }
    ensures unfinished { (d : Draft) (t : List TableState) (given : List (List Op)) (w : World) → IsReachedWorld d t given w
        → is_finished w ≡ false → (e : WorldEvent) × (can_happen d (pick t) w e ≡ true) }
{}

/// No run is longer than its operations allow: the events so far and the work that is left are together no more than the work of all operations, which is
/// 2n + 2 for each with n cores. Each event lowers the work that is left.
pub fn runs_are_bounded()
    ensures journal { (d : Draft) (t : List TableState) (given : List (List Op)) (w : World) → IsReachedWorld d t given w
        → length w.journal + work d (length given) w ≤ total (total (operation_work (length given))) given }
    ensures event { (d : Draft) (t : List TableState) (given : List (List Op)) (w : World) (e : ℕ × WorldEvent) → IsReachedWorld d t given w
        → is_enabled (pick t) w e.1 ≡ true → work d (length given) (step d (pick t) w e) < work d (length given) w }
{}

/// A core that has no operation left and whose line is at rest stays so.
pub fn cores_that_are_through_stay_so()
    ensures { (d : Draft) (t : List TableState) (given : List (List Op)) (w : World) (e : ℕ × WorldEvent) (c : ℕ) → IsReachedWorld d t given w
        → c < length given → IsThrough w c → IsThrough (step d (pick t) w e) c }
{}
