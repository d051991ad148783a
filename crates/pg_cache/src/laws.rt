//! What the definitions of this crate give, as a person works it out on MSI.

ghost use Rattle.pg_cache.specs.Acts.{
  Fits,
  IsWithinLimit,
  after_deferred,
  serve_one,
  state_after_forward,
};
ghost use Rattle.pg_cache.specs.Inputs.{has_stall_row};
ghost use Rattle.pg_cache.specs.Rows.{
  HasRoomFor,
  IsMadeWith,
  after_row,
  finish_of,
  is_count,
  is_defer,
  outstanding,
};
ghost use Rattle.pg_cache.specs.Acts.{LineView};
ghost use Rattle.pg_cache.specs.Worked.{
  deferring,
  line_waiting,
  line_with,
  nets_with,
  rows_tell_completions,
  stalling,
  view,
  with_replies,
};
ghost use Rattle.pg_controllers.specs.Lines.{
  LineResult,
  Received,
  received_op,
  received_ordered,
  serve,
};
ghost use Rattle.pg_controllers.specs.Networks.{Line};
ghost use Rattle.pg_controllers.specs.Worlds.{is_stable};
ghost use Rattle.pg_messages.specs.declared.messages.Finished.TheVariants as finish;
ghost use Rattle.pg_messages.specs.declared.messages.Finished.{Finished};
ghost use Rattle.pg_messages.specs.declared.messages.Ordered.TheVariants.{AckCount, Forward, PutAck};
ghost use Rattle.pg_messages.specs.declared.messages.Ordered.{Ordered};
ghost use Rattle.pg_messages.specs.declared.messages.Reply.TheVariants.{Data, InvAck, WbData};
ghost use Rattle.pg_perm.specs.declared.draft.Draft.{Draft};
ghost use Rattle.pg_perm.specs.declared.kinds.Event.TheVariants as event;
ghost use Rattle.pg_perm.specs.declared.kinds.Event.{Event};
ghost use Rattle.pg_perm.specs.declared.kinds.Mode.TheVariants as mode;
ghost use Rattle.pg_perm.specs.declared.kinds.Op.TheVariants as op;
ghost use Rattle.pg_queue.specs.Nets.{Nets, with_request};
ghost use Rattle.pg_samples.specs.Drafts.{mosi, msi};
ghost use Rattle.pg_table.specs.Choices.{Choice};
ghost use Rattle.pg_table.specs.Tables.{cache_table};
ghost use Rattle.pg_table.specs.declared.cache.Act.TheVariants as act;
ghost use Rattle.pg_table.specs.declared.cache.Desc.TheVariants.{Ask, Leave, Stable};
ghost use Rattle.pg_table.specs.declared.cache.Input.TheVariants as at;
ghost use Rattle.pg_table.specs.declared.cache.Phase.TheVariants.{Ad, D};
ghost use Rattle.pg_table.specs.declared.cache.Phase.{Phase};
ghost use Rattle.pg_table.specs.declared.cache.Tag.TheVariants.{Gave, Plain};
ghost use Rattle.pg_table.specs.declared.cache.Tag.{Tag};
ghost use Rattle.std.specs.List.{list_any};
ghost use Rattle.std.specs.Prelude.{◌≡◌, ◌<◌, ◌++◌, ℕ, List, [], ◌∷◌, length, Option, Some, None, true, false};

/// A store of the writer hits and is done at once. A load of a core that holds nothing sends its request, and an evict of the writer brings its word.
pub fn worked_operations()
    ensures hit { after_row stalling (at.Core event.Store) (received_op (line_with (Stable 2) 5 3) (op.Store 7)) (view 2 (line_with (Stable 2) 5 3)) (nets_with [])
        ≡ record { line = view 2 (line_with (Stable 2) 7 3); nets = nets_with []; done = Some (record { stamp = 3; fin = finish.Store 7; late = false }) } }
    ensures miss { after_row stalling (at.Core event.Load) (received_op (line_with (Stable 0) 0 0) op.Load) (view 0 (line_with (Stable 0) 0 0)) (nets_with [])
        ≡ record { line = view 3 (line_waiting (Ask event.Load 0 D Plain) op.Load 0 0 []); nets = with_request 0 (record { request = 0; event = event.Load; word = None }) (nets_with []); done = None } }
    ensures evict { after_row stalling (at.Core event.Evict) (received_op (line_with (Stable 2) 5 3) op.Evict) (view 2 (line_with (Stable 2) 5 3)) (nets_with [])
        ≡ record { line = view 9 (line_waiting (Leave 2) op.Evict 5 3 []); nets = with_request 0 (record { request = 3; event = event.Evict; word = Some 5 }) (nets_with []); done = None } }
    ensures no_row { (m : Received) (l : LineView) (w : Nets) → after_row stalling at.PutAck m (view 2 (line_with (Stable 2) 5 3)) w
        ≡ record { line = view 2 (line_with (Stable 2) 5 3); nets = w; done = None } }
{}

/// An invalidation that a sharer meets before its own store is acknowledged at once, and moves the state in which the store began. A share that comes after
/// the store waits in the stalling table, and is put off in the deferring one.
pub fn worked_forwards()
    ensures earlier { after_row stalling (at.Forward 4) (received_ordered (line_waiting (Ask event.Store 1 Ad Plain) (op.Store 7) 5 3 []) (Forward 4 1 0 6)) (view 6 (line_waiting (Ask event.Store 1 Ad Plain) (op.Store 7) 5 3 [])) (nets_with (WbData 9 2 ∷ []))
        ≡ record { line = view 4 (line_waiting (Ask event.Store 0 Ad Plain) (op.Store 7) 5 6 []); nets = nets_with (WbData 9 2 ∷ InvAck 1 6 ∷ []); done = None } }
    ensures deferred { after_row deferring (at.Forward 5) (received_ordered (line_waiting (Ask event.Store 0 Ad Plain) (op.Store 7) 0 0 []) (Forward 5 1 0 6)) (view 5 (line_waiting (Ask event.Store 0 Ad Plain) (op.Store 7) 0 0 [])) (nets_with [])
        ≡ record { line = view 6 (line_waiting (Ask event.Store 0 Ad Gave) (op.Store 7) 0 0 (Forward 5 1 0 6 ∷ [])); nets = nets_with []; done = None } }
    ensures later_waits { has_stall_row stalling.cache (line_waiting (Ask event.Store 0 Ad Plain) (op.Store 7) 0 0 []) (Forward 5 1 0 6) ≡ true }
    ensures later_is_put_off { has_stall_row deferring.cache (line_waiting (Ask event.Store 0 Ad Plain) (op.Store 7) 0 0 []) (Forward 5 1 0 6) ≡ false }
    ensures earlier_comes { has_stall_row stalling.cache (line_waiting (Ask event.Store 1 Ad Plain) (op.Store 7) 0 0 []) (Forward 4 1 0 6) ≡ false }
    ensures no_row { has_stall_row stalling.cache (line_with (Stable 0) 0 0) (Forward 5 1 0 6) ≡ false }
{}

/// Deferred forwards are served one after another, each from the state to which those before it led, and then none is deferred.
pub fn deferred_forwards_are_served_in_order()
    ensures forward { (d : Draft) (x f r n k : ℕ) (ms : List Ordered) (a : LineResult)
        → serve d x (Forward f r n k ∷ ms) a ≡ serve d (state_after_forward d x (Forward f r n k)) ms (serve_one d x (Forward f r n k) a) }
    ensures count { (d : Draft) (x n k : ℕ) (ms : List Ordered) (a : LineResult)
        → serve d x (AckCount n k ∷ ms) a ≡ serve d (state_after_forward d x (AckCount n k)) ms (serve_one d x (AckCount n k) a) }
    ensures evicted { (d : Draft) (x k : ℕ) (ms : List Ordered) (a : LineResult)
        → serve d x (PutAck k ∷ ms) a ≡ serve d (state_after_forward d x (PutAck k)) ms (serve_one d x (PutAck k) a) }
    ensures writer_shares { state_after_forward msi 2 (Forward 5 1 0 3) ≡ 1 }
    ensures writer_gives { state_after_forward msi 2 (Forward 6 1 0 3) ≡ 0 }
    ensures sharer_is_invalidated { state_after_forward msi 1 (Forward 4 1 0 3) ≡ 0 }
    ensures replies { (after_deferred msi 2 (Forward 5 1 0 3 ∷ Forward 4 0 0 4 ∷ []) (with_replies 1 (line_with (Stable 2) 9 3))).result.replies
        ≡ InvAck 0 1 ∷ Data 7 1 9 0 3 ∷ WbData 9 3 ∷ InvAck 0 4 ∷ [] }
    ensures none { (after_deferred msi 2 (Forward 5 1 0 3 ∷ []) (with_replies 0 (line_waiting (Ask event.Store 0 Ad Gave) (op.Store 7) 9 3 (Forward 5 1 0 3 ∷ [])))).result.line.deferred ≡ [] }
{}

/// An operation is outstanding exactly where the line is not stable, and it is done exactly at the inputs that complete it: in the tables of MSI and MOSI these
/// are the rows with the act done. What is completed bears the stamp of what was met.
pub fn operations_are_outstanding_until_done()
    ensures stable { (s : ℕ) → outstanding (Stable s) ≡ None }
    ensures asking { (e : Event) (s : ℕ) (p : Phase) (t : Tag) → outstanding (Ask e s p t) ≡ Some e }
    ensures leaving { (s : ℕ) → outstanding (Leave s) ≡ Some event.Evict }
    ensures stalling { rows_tell_completions (cache_table msi mode.Stall) ≡ true }
    ensures deferring { rows_tell_completions (cache_table mosi mode.Defer) ≡ true }
    ensures stamp { (m : Received) (f : Finished) → finish_of m (Some f) ≡ Some (record { stamp = m.stamp; fin = f; late = m.late }) }
    ensures made { IsMadeWith stalling (view 2 (line_with (Stable 2) 5 3)) }
    ensures not_made { IsMadeWith stalling (view 1 (line_with (Stable 2) 5 3)) → ⊥ }
{}

/// There is room for an act where the networks have room for what it sends, the line for what it defers, and the count of acknowledgements stays within 64.
/// Between two cores at most five messages are on their way.
pub fn worked_room()
    ensures sent { (m : Received) → Fits msi m act.Ack (with_replies 4 (line_with (Stable 1) 5 3)) }
    ensures not_sent { (m : Received) → Fits msi m act.Ack (with_replies 5 (line_with (Stable 1) 5 3)) → ⊥ }
    ensures not_given { (m : Received) (r : ℕ) → Fits msi m (act.Give r) (with_replies 5 (line_with (Stable 2) 5 3)) → ⊥ }
    ensures not_written_back { (m : Received) → Fits msi m act.Wb (with_replies 5 (line_with (Stable 2) 5 3)) → ⊥ }
    ensures not_deferred { (m : Received) (o p : Ordered) → Fits msi m act.Defer (with_replies 0 (line_waiting (Ask event.Store 0 Ad Gave) (op.Store 7) 0 0 (o ∷ p ∷ []))) → ⊥ }
    ensures limit { IsWithinLimit (with_replies 5 (line_with (Stable 0) 0 0)) }
    ensures over_limit { IsWithinLimit (with_replies 6 (line_with (Stable 0) 0 0)) → ⊥ }
    ensures counted { (d : Draft) (c : Choice) (m : Received) (x : LineView) (w : Nets) → HasRoomFor d c m x w → list_any is_count c.acts ≡ true → x.line.got < 64 }
    ensures deferred { (d : Draft) (c : Choice) (m : Received) (x : LineView) (w : Nets) → HasRoomFor d c m x w → list_any is_defer c.acts ≡ true → length x.line.deferred < x.room }
    ensures count_counts { is_count act.Count ≡ true }
    ensures defer_defers { is_defer act.Defer ≡ true }
{}
