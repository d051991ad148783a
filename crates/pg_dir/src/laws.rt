//! What the definitions of this crate give, as a person works it out on MSI with three cores.

ghost use Rattle.pg_controllers.specs.Directories.{Directory};
ghost use Rattle.pg_dir.specs.Effects.{
  Effects,
  Fits,
  HasRoomFor,
  after_act,
  after_acts,
  result_of_request,
  row_for,
  send_ordered,
  word_written_back,
  write_back,
};
ghost use Rattle.pg_dir.specs.Numbers.{AreBelow, IsInside, IsNumbered, initial_directory};
ghost use Rattle.pg_dir.specs.Worked.{
  asking,
  bringing,
  dir_with,
  nets_with,
  numbered,
  result_with,
  silent,
};
ghost use Rattle.pg_directory.specs.DirEntries.{DirEntry};
ghost use Rattle.pg_messages.specs.declared.messages.Ordered.TheVariants.{AckCount, Forward, PutAck};
ghost use Rattle.pg_messages.specs.declared.messages.Ordered.{Ordered};
ghost use Rattle.pg_messages.specs.declared.messages.Reply.TheVariants.{Data, InvAck, WbData};
ghost use Rattle.pg_messages.specs.declared.messages.Reply.{Reply};
ghost use Rattle.pg_perm.specs.declared.kinds.Event.TheVariants as event;
ghost use Rattle.pg_perm.specs.declared.kinds.ReqClass.TheVariants as class;
ghost use Rattle.pg_perm.specs.declared.kinds.Who.TheVariants as who;
ghost use Rattle.pg_samples.specs.Drafts.{msi};
ghost use Rattle.pg_table.specs.Tables.{dir_table};
ghost use Rattle.pg_table.specs.declared.directory.DirAct.TheVariants as act;
ghost use Rattle.pg_table.specs.declared.directory.DirDesc.TheVariants.{Busy, State};
ghost use Rattle.pg_table.specs.declared.directory.DirInput.TheVariants as met;
ghost use Rattle.std.specs.Prelude.{◌≡◌, ◌≤◌, ℕ, List, [], ◌∷◌, Option, Some, None, replicate};

/// At first nobody has the block, and memory has 0. The first store is answered with memory's word. Where an owner is, a load is passed on to it, and the
/// directory waits for its data. A store invalidates each sharer but its own core, and tells that core how many they are.
pub fn worked_requests()
    ensures opening { initial_directory msi ≡ dir_with (State 0) 0 None [] 0 }
    ensures first_store { result_of_request msi 0 (asking 1 event.Store) (initial_directory msi) silent
        ≡ result_with (dir_with (State 2) 0 (Some 0) [] 1) (nets_with [] [] [] (Data 7 0 0 0 1 ∷ [])) }
    ensures shared_load { result_of_request msi 1 (asking 0 event.Load) (dir_with (State 2) 4 (Some 0) [] 1) silent
        ≡ result_with (dir_with (Busy 1) 4 None (0 ∷ 1 ∷ []) 2) (nets_with (Forward 5 1 0 2 ∷ []) [] [] []) }
    ensures store_of_sharer { result_of_request msi 1 (asking 1 event.Store) (dir_with (State 1) 4 None (0 ∷ 1 ∷ 2 ∷ []) 3) silent
        ≡ result_with (dir_with (State 2) 4 (Some 1) [] 4)
        (nets_with (Forward 4 1 0 4 ∷ []) [] (Forward 4 1 0 4 ∷ []) (Data 7 1 4 2 4 ∷ [])) }
{}

/// The owner's evict writes its word to memory. A stale one is acknowledged too, and leaves all else as it is.
pub fn worked_evicts()
    ensures owner { result_of_request msi 0 (bringing 9 3 event.Evict) (dir_with (State 2) 4 (Some 0) [] 1) silent
        ≡ result_with (dir_with (State 0) 9 None [] 2) (nets_with (PutAck 2 ∷ []) [] [] []) }
    ensures stale { result_of_request msi 1 (bringing 9 3 event.Evict) (dir_with (State 2) 4 (Some 0) [] 1) silent
        ≡ result_with (dir_with (State 2) 4 (Some 0) [] 2) (nets_with [] (PutAck 2 ∷ []) [] []) }
    ensures sharer { result_of_request msi 2 (asking 2 event.Evict) (dir_with (State 1) 4 None (0 ∷ 2 ∷ []) 5) silent
        ≡ result_with (dir_with (State 1) 4 None (0 ∷ []) 6) (nets_with [] [] (PutAck 6 ∷ []) []) }
{}

/// Data that is written back goes to memory, and the directory no longer waits. No other reply is written back.
pub fn worked_write_backs()
    ensures memory { (v : ℕ) → write_back msi v (dir_with (Busy 1) 4 None (0 ∷ 1 ∷ []) 2) ≡ dir_with (State 1) v None (0 ∷ 1 ∷ []) 2 }
    ensures word { (v k : ℕ) → word_written_back (WbData v k) ≡ Some v }
    ensures data { (r c v n k : ℕ) → word_written_back (Data r c v n k) ≡ None }
    ensures acknowledgement { (c k : ℕ) → word_written_back (InvAck c k) ≡ None }
{}

/// What each act does to memory, to the number of invalidations and to the networks. Messages are sent in their order.
pub fn worked_acts()
    ensures invalidations { (x : ℕ) → after_act msi (record { dir = 1; owner = None; sharers = 0 ∷ 1 ∷ 2 ∷ [] }) 1 4 None act.Inv (record { memory = x; invs = 0; nets = silent })
        ≡ record { memory = x; invs = 2; nets = nets_with (Forward 4 1 0 4 ∷ []) [] (Forward 4 1 0 4 ∷ []) [] } }
    ensures forward { (x f : ℕ) → after_act msi (record { dir = 2; owner = Some 2; sharers = [] }) 1 4 None (act.Forward f) (record { memory = x; invs = 3; nets = silent })
        ≡ record { memory = x; invs = 3; nets = nets_with [] [] (Forward f 1 3 4 ∷ []) [] } }
    ensures count { (x : ℕ) (s : DirEntry) → after_act msi s 1 4 None act.AckCount (record { memory = x; invs = 3; nets = silent })
        ≡ record { memory = x; invs = 3; nets = nets_with [] (AckCount 3 4 ∷ []) [] [] } }
    ensures reply { (x r : ℕ) (s : DirEntry) → after_act msi s 1 4 None (act.Reply r) (record { memory = x; invs = 3; nets = silent })
        ≡ record { memory = x; invs = 3; nets = nets_with [] [] [] (Data r 1 x 3 4 ∷ []) } }
    ensures word { (x v : ℕ) (s : DirEntry) → after_act msi s 1 4 (Some v) act.Write (record { memory = x; invs = 0; nets = silent })
        ≡ record { memory = v; invs = 0; nets = silent } }
    ensures no_word { (x : ℕ) (s : DirEntry) → after_act msi s 1 4 None act.Write (record { memory = x; invs = 0; nets = silent })
        ≡ record { memory = x; invs = 0; nets = silent } }
    ensures two { (x : ℕ) (s : DirEntry) → after_acts msi s 1 4 (Some 9) (act.Write ∷ act.Reply 7 ∷ []) (record { memory = x; invs = 0; nets = silent })
        ≡ record { memory = 9; invs = 0; nets = nets_with [] [] [] (Data 7 1 9 0 4 ∷ []) } }
    ensures order { (m o : Ordered) → send_ordered ((0, m) ∷ (2, m) ∷ (0, o) ∷ []) silent ≡ nets_with (m ∷ o ∷ []) [] (m ∷ []) [] }
{}

/// There is room for an act where there is room for each message that it sends, and for a request where there is room for all of them.
pub fn worked_room()
    ensures reply { (s : DirEntry) (c r : ℕ) → Fits s c (act.Reply r) 0 → ⊥ }
    ensures acknowledgement { (s : DirEntry) (c : ℕ) → Fits s c act.PutAck 0 → ⊥ }
    ensures count { (s : DirEntry) (c : ℕ) → Fits s c act.AckCount 0 → ⊥ }
    ensures forward { (c f : ℕ) → Fits (record { dir = 2; owner = Some 2; sharers = [] }) c (act.Forward f) 0 → ⊥ }
    ensures few { Fits (record { dir = 1; owner = None; sharers = 0 ∷ 1 ∷ 2 ∷ [] }) 1 act.Inv 1 → ⊥ }
    ensures enough { Fits (record { dir = 1; owner = None; sharers = 0 ∷ 1 ∷ 2 ∷ [] }) 1 act.Inv 2 }
    ensures request { HasRoomFor msi (dir_with (State 1) 4 None (0 ∷ 1 ∷ 2 ∷ []) 3) 1 (asking 1 event.Store)
        (nets_with [] [] [] (replicate 7 (InvAck 0 1))) }
    ensures no_request { HasRoomFor msi (dir_with (State 1) 4 None (0 ∷ 1 ∷ 2 ∷ []) 3) 1 (asking 1 event.Store)
        (nets_with [] [] [] (replicate 8 (InvAck 0 1))) → ⊥ }
{}

/// The owner and the sharers are cores of the block, and the number of the directory's state is its place in the table, of which the rows are looked up.
pub fn worked_numbers()
    ensures owner { IsInside 2 (Some 2) [] → ⊥ }
    ensures sharer { IsInside 2 None (0 ∷ 2 ∷ []) → ⊥ }
    ensures few { (n : ℕ) → IsInside n None [] → n ≤ 64 }
    ensures below { AreBelow 2 (1 ∷ 0 ∷ []) }
    ensures owned { IsNumbered (dir_table msi) (numbered 2 (dir_with (State 2) 4 (Some 0) [] 1)) }
    ensures waiting { IsNumbered (dir_table msi) (numbered 3 (dir_with (Busy 1) 4 None (0 ∷ 1 ∷ []) 2)) }
    ensures other { IsNumbered (dir_table msi) (numbered 1 (dir_with (State 2) 4 (Some 0) [] 1)) → ⊥ }
    ensures row { row_for (dir_table msi) (numbered 1 (dir_with (State 1) 4 None (0 ∷ []) 1)) (record { core = 1; event = event.Store })
        ≡ Some (record { inputs = met.Ask class.Write who.Other ∷ []; acts = act.Inv ∷ act.Reply 7 ∷ []; next = 2 }) }
{}
