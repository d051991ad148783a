//! Laws on the table of the directory controller.

ghost use Rattle.std.specs.Prelude.{ℕ, ◌<◌, ◌≡◌, ◌≢◌, ◌↔◌, ◌⊎◌, ◌||◌, true, false, List, [], ◌∷◌, ◌++◌, slice_get, Some, None, if◌then◌else◌};
ghost use Rattle.std.specs.List.{list_any};
ghost use Rattle.std.specs.Option.{option_map, option_map_or};
ghost use Rattle.pg_perm.specs.declared.kinds.DirKind.TheVariants as kind;
ghost use Rattle.pg_perm.specs.declared.kinds.Event.TheVariants as event;
ghost use Rattle.pg_perm.specs.declared.kinds.ReqClass.{ReqClass};
ghost use Rattle.pg_perm.specs.declared.kinds.ReqClass.TheVariants.{Read, Write};
ghost use Rattle.pg_perm.specs.declared.kinds.Who.{Who};
ghost use Rattle.pg_perm.specs.declared.kinds.Who.TheVariants as who;
ghost use Rattle.pg_perm.specs.declared.kinds.Left.{Left};
ghost use Rattle.pg_perm.specs.declared.draft.Draft.{Draft};
ghost use Rattle.pg_perm.specs.declared.draft.Action.{Action};
ghost use Rattle.pg_perm.specs.declared.draft.Action.TheVariants as action;
ghost use Rattle.pg_perm.specs.Drafts.{IsWellFormed};
ghost use Rattle.pg_terms.specs.declared.cases.DirCase.TheVariants as case;
ghost use Rattle.pg_terms.specs.Due.{kind_is, is_due_case};
ghost use Rattle.pg_terms.specs.Rows.{is_by_share};
ghost use Rattle.pg_shape.specs.Shaped.{IsShaped};
ghost use Rattle.pg_directory.specs.DirEntries as known;
ghost use Rattle.pg_directory.specs.DirEntries.{DirEntry, Request, row_of, entry_after};
ghost use Rattle.pg_directory.specs.Sends.{forward_sent};
ghost use Rattle.pg_directory.specs.Sound as held;
ghost use Rattle.pg_directory.specs.Sound.{IsLegal};
ghost use Rattle.pg_directory.specs.Requests.{action_of};
ghost use Rattle.pg_table.specs.declared.directory.DirDesc.{DirDesc};
ghost use Rattle.pg_table.specs.declared.directory.DirDesc.TheVariants as dir;
ghost use Rattle.pg_table.specs.declared.directory.DirInput.{DirInput};
ghost use Rattle.pg_table.specs.declared.directory.DirInput.TheVariants as met;
ghost use Rattle.pg_table.specs.declared.directory.DirAct.{DirAct};
ghost use Rattle.pg_table.specs.declared.directory.DirAct.TheVariants as does;
ghost use Rattle.pg_table.specs.Directory.{dir_descs, dir_inputs, DirChoice, act_of_action, dir_choice, DirGenRow, DirGenState, dir_generated_states};
ghost use Rattle.pg_table.specs.DirRequests.{dir_of, is_busy, request_input, request_choice};
ghost use Rattle.pg_table.specs.Stalls.{is_asked_busy, is_dir_stall};
ghost use Rattle.pg_table.specs.Tables.{DirRow, DirTableState, has_dir_input, find_dir_row, same_dir_desc, dir_table};

/// Each row of the directory leads to one of its states.
pub fn directory_rows_lead_to_states()
    ensures { (d : Draft) (n k : ℕ) (s : DirGenState) (r : DirGenRow) → IsWellFormed d → slice_get (dir_generated_states d) n ≡ Some s
        → slice_get s.rows k ≡ Some r → list_any (same_dir_desc r.choice.next) (dir_descs d) ≡ true }
{}

/// The directory lets a request wait exactly where that comes while the directory waits for data, and then it does nothing else and stays in its state.
pub fn directory_stalls_when_busy()
    ensures stays { (d : Draft) (s : DirDesc) (i : DirInput) → is_asked_busy s i ≡ true
        → dir_choice d s i ≡ Some (record { acts = does.Stall ∷ []; next = s }) }
    ensures stalls { (d : Draft) (s : DirDesc) (i : DirInput) (c : DirChoice) → dir_choice d s i ≡ Some c
        → ((c.acts ≡ does.Stall ∷ []) ↔ (is_asked_busy s i ≡ true)) }
    ensures others { (d : Draft) (s : DirDesc) (i : DirInput) (c : DirChoice) → dir_choice d s i ≡ Some c → is_asked_busy s i ≡ false
        → list_any is_dir_stall c.acts ≡ false }
{}

/// While the directory waits for data, a READ, a WRITE and an evict wait, the data is written and ends that, and nothing else may come. In a state in
/// which it doesn't wait none of these four may come, and an evict of a core that is neither owner nor sharer is told to be handled.
pub fn busy_states_have_rows()
    ensures read { (d : Draft) (n : ℕ) → dir_choice d (dir.Busy n) (met.BusyAsk Read) ≡ Some (record { acts = does.Stall ∷ []; next = dir.Busy n }) }
    ensures write { (d : Draft) (n : ℕ) → dir_choice d (dir.Busy n) (met.BusyAsk Write) ≡ Some (record { acts = does.Stall ∷ []; next = dir.Busy n }) }
    ensures evict { (d : Draft) (n : ℕ) → dir_choice d (dir.Busy n) met.BusyEvict ≡ Some (record { acts = does.Stall ∷ []; next = dir.Busy n }) }
    ensures data { (d : Draft) (n : ℕ) → dir_choice d (dir.Busy n) met.Wb ≡ Some (record { acts = does.Write ∷ []; next = dir.State n }) }
    ensures no_other { (d : Draft) (n : ℕ) (i : DirInput) (c : DirChoice) → dir_choice d (dir.Busy n) i ≡ Some c
        → (is_asked_busy (dir.Busy n) i ≡ true) ⊎ (i ≡ met.Wb) }
    ensures no_ask { (d : Draft) (n : ℕ) (class : ReqClass) → dir_choice d (dir.State n) (met.BusyAsk class) ≡ None }
    ensures no_evict { (d : Draft) (n : ℕ) → dir_choice d (dir.State n) met.BusyEvict ≡ None }
    ensures no_data { (d : Draft) (n : ℕ) → dir_choice d (dir.State n) met.Wb ≡ None }
    ensures evict_none { (d : Draft) (n : ℕ) → dir_choice d (dir.State n) met.EvictNone ≡ Some (record { acts = does.PutAck ∷ []; next = dir.State n }) }
{}

/// The directory makes a choice for each case that is due, whose input is among those that it has rows for, and none for another case.
pub fn directory_cases_have_rows()
    ensures asks { (d : Draft) (n : ℕ) (class : ReqClass) (w : Who) → IsShaped d → is_due_case d n (case.Ask class w) ≡ true
        → (c : DirChoice) × (dir_choice d (dir.State n) (met.Ask class w) ≡ Some c) }
    ensures evicts { (d : Draft) (n : ℕ) (w : Who) (l : Left) → IsShaped d → is_due_case d n (case.Evict w l) ≡ true
        → (c : DirChoice) × (dir_choice d (dir.State n) (met.Evict w l) ≡ Some c) }
    ensures no_ask { (d : Draft) (n : ℕ) (class : ReqClass) (w : Who) → is_due_case d n (case.Ask class w) ≡ false
        → dir_choice d (dir.State n) (met.Ask class w) ≡ None }
    ensures no_evict { (d : Draft) (n : ℕ) (w : Who) (l : Left) → is_due_case d n (case.Evict w l) ≡ false
        → dir_choice d (dir.State n) (met.Evict w l) ≡ None }
    ensures ask_listed { (d : Draft) (n : ℕ) (class : ReqClass) (w : Who) → is_due_case d n (case.Ask class w) ≡ true
        → has_dir_input dir_inputs (met.Ask class w) ≡ true }
    ensures evict_listed { (d : Draft) (n : ℕ) (w : Who) (l : Left) → is_due_case d n (case.Evict w l) ≡ true
        → has_dir_input dir_inputs (met.Evict w l) ≡ true }
{}

/// In a state of the directory's table and at an input the row that is found does what the directory's choice says and leads to the state of the table
/// that it says, and none is found where there is no choice.
pub fn directory_table_answers()
    ensures some { (d : Draft) (n : ℕ) (s : DirTableState) (i : DirInput) (c : DirChoice) → IsWellFormed d → slice_get (dir_table d) n ≡ Some s
        → dir_choice d s.desc i ≡ Some c → (r : DirRow) × (find_dir_row (dir_table d) n i ≡ Some r) × (r.acts ≡ c.acts)
        × (option_map (λ s. s.desc) (slice_get (dir_table d) r.next) ≡ Some c.next) }
    ensures none { (d : Draft) (n : ℕ) (s : DirTableState) (i : DirInput) → slice_get (dir_table d) n ≡ Some s → dir_choice d s.desc i ≡ None
        → find_dir_row (dir_table d) n i ≡ None }
{}

/// What the directory does with a request that may come where what it knows is sound and it waits for nothing. It does what the row of the request says,
/// and at a store it first sends invalidations, if there may be sharers; it tells the requestor that an evict was handled, and memory takes the word that
/// the owner's brings. It goes to the state that it knows afterwards, and waits before it exactly after a share. What it passes on is what the owner is sent.
/// The input for a core that holds nothing is exactly that of a stale evict.
pub fn directory_rows_follow_requests()
    ensures choice { (d : Draft) (n : ℕ) (s : DirEntry) (q : Request) → IsWellFormed d → IsShaped d → held.IsSound d n s → q.core < n → IsLegal d s q → (c : DirChoice) × (request_choice d s q ≡ Some c) }
    ensures load { (d : Draft) (n : ℕ) (s : DirEntry) (q : Request) (c : DirChoice) → IsWellFormed d → IsShaped d → held.IsSound d n s → q.core < n → IsLegal d s q
        → q.event ≡ event.Load → request_choice d s q ≡ Some c → (a : Action) × (action_of d s q ≡ Some a) × (c.acts ≡ act_of_action a ∷ []) }
    ensures store { (d : Draft) (n : ℕ) (s : DirEntry) (q : Request) (c : DirChoice) → IsWellFormed d → IsShaped d → held.IsSound d n s → q.core < n → IsLegal d s q
        → q.event ≡ event.Store → request_choice d s q ≡ Some c → (a : Action) × (action_of d s q ≡ Some a)
        × (c.acts ≡ (if kind_is kind.Shared d s.dir || kind_is kind.Mixed d s.dir then does.Inv ∷ [] else []) ++ act_of_action a ∷ []) }
    ensures sharers { (d : Draft) (n : ℕ) (s : DirEntry) (q : Request) (c : DirChoice) (k : ℕ) → IsWellFormed d → IsShaped d → held.IsSound d n s → q.core < n → IsLegal d s q
        → q.event ≡ event.Store → request_choice d s q ≡ Some c → known.is_among s.sharers k ≡ true → (rest : List DirAct) × (c.acts ≡ does.Inv ∷ rest) }
    ensures evict_owner { (d : Draft) (n : ℕ) (s : DirEntry) (q : Request) (c : DirChoice) → IsWellFormed d → IsShaped d → held.IsSound d n s → q.core < n → q.event ≡ event.Evict
        → known.who s q.core ≡ who.Owner → request_choice d s q ≡ Some c → c.acts ≡ does.Write ∷ does.PutAck ∷ [] }
    ensures evict_other { (d : Draft) (n : ℕ) (s : DirEntry) (q : Request) (c : DirChoice) → IsWellFormed d → IsShaped d → held.IsSound d n s → q.core < n → q.event ≡ event.Evict
        → known.who s q.core ≢ who.Owner → request_choice d s q ≡ Some c → c.acts ≡ does.PutAck ∷ [] }
    ensures known { (d : Draft) (n : ℕ) (s : DirEntry) (q : Request) (c : DirChoice) → IsWellFormed d → IsShaped d → held.IsSound d n s → q.core < n → IsLegal d s q → request_choice d s q ≡ Some c
        → dir_of c.next ≡ (entry_after d s q).dir }
    ensures busy { (d : Draft) (n : ℕ) (s : DirEntry) (q : Request) (c : DirChoice) → IsWellFormed d → IsShaped d → held.IsSound d n s → q.core < n → IsLegal d s q → request_choice d s q ≡ Some c
        → is_busy c.next ≡ option_map_or (is_by_share d) (row_of d s q) false }
    ensures sent { (d : Draft) (n : ℕ) (s : DirEntry) (q : Request) (o f : ℕ) → held.IsSound d n s → s.owner ≡ Some o → forward_sent d s q o ≡ Some f
        → action_of d s q ≡ Some (action.Forward f) }
    ensures passed { (d : Draft) (n : ℕ) (s : DirEntry) (q : Request) (f : ℕ) → IsWellFormed d → IsShaped d → held.IsSound d n s → q.core < n → IsLegal d s q → action_of d s q ≡ Some (action.Forward f)
        → (o : ℕ) × (s.owner ≡ Some o) × (forward_sent d s q o ≡ Some f) }
    ensures stale { (s : DirEntry) (q : Request) → ((request_input s q ≡ met.EvictNone) ↔ ((q.event ≡ event.Evict) × (known.who s q.core ≡ who.Other))) }
{}
