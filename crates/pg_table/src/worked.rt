//! What the definitions of this crate give for small protocols.

ghost use Rattle.std.specs.Prelude.{◌≡◌, [], ◌∷◌, ◌++◌, length, take, drop};
ghost use Rattle.pg_perm.specs.declared.kinds.Event.TheVariants as event;
ghost use Rattle.pg_perm.specs.declared.kinds.Mode.TheVariants as mode;
ghost use Rattle.pg_table.specs.declared.cache.Desc.TheVariants as desc;
ghost use Rattle.pg_table.specs.declared.cache.Phase.TheVariants as phase;
ghost use Rattle.pg_table.specs.declared.cache.Tag.TheVariants as tag;
ghost use Rattle.pg_table.specs.declared.cache.Input.TheVariants as at;
ghost use Rattle.pg_table.specs.declared.cache.Act.TheVariants as act;
ghost use Rattle.pg_table.specs.Descriptors.{descs};
ghost use Rattle.pg_table.specs.GeneratedStates.{rows_of, generated_states};
ghost use Rattle.pg_table.specs.declared.directory.DirDesc.TheVariants as dir;
ghost use Rattle.pg_table.specs.declared.directory.DirInput.TheVariants as met;
ghost use Rattle.pg_table.specs.declared.directory.DirAct.TheVariants as does;
ghost use Rattle.pg_perm.specs.declared.kinds.ReqClass.TheVariants as asks;
ghost use Rattle.pg_perm.specs.declared.kinds.Who.TheVariants as who;
ghost use Rattle.pg_perm.specs.declared.kinds.Left.TheVariants as left;
ghost use Rattle.pg_table.specs.Directory.{dir_descs, dir_rows, dir_generated_states};
ghost use Rattle.pg_table.specs.Variants.{two_shares, owned_reader, keeps_then_gives};
ghost use Rattle.pg_table.specs.MixedTables.{mixed_states, mixed_table};
ghost use Rattle.pg_table.specs.Sound.{IsSound};
ghost use Rattle.pg_table.specs.Tables.{dir_table};
ghost use Rattle.pg_samples.specs.Drafts.{mi, msi, mesi, mosi, moesi};
ghost use Rattle.pg_table.specs.Worked.{acks_at_loads, msi_mix};

/// The states of cache controllers, as a person counts them: of MSI, MESI and MOSI.
pub fn worked_states()
    ensures stalling { descs msi mode.Stall ≡ desc.Stable 0 ∷ desc.Stable 1 ∷ desc.Stable 2 ∷ desc.Ask event.Load 0 phase.D tag.Plain
        ∷ desc.Ask event.Store 0 phase.Ad tag.Plain ∷ desc.Ask event.Store 0 phase.A tag.Plain ∷ desc.Ask event.Store 1 phase.Ad tag.Plain
        ∷ desc.Ask event.Store 1 phase.A tag.Plain ∷ desc.Leave 1 ∷ desc.Leave 2 ∷ desc.Leave 0 ∷ [] }
    ensures deferring { length (descs msi mode.Defer) ≡ 20 }
    ensures mesi { length (descs mesi mode.Stall) ≡ 13 }
    ensures mosi { length (descs mosi mode.Stall) ≡ 15 }
{}

/// Whole tables, as a person works them out: of MSI those of its caches, stalling and deferring, and that of the directory; of MI those of
/// its caches.
pub fn worked_tables()
    ensures stall { generated_states msi mode.Stall ≡
        record { desc = desc.Stable 0; rows = record { input = at.Core event.Load; choice = record { acts = act.Send 0 ∷ []; next = desc.Ask event.Load 0 phase.D tag.Plain } } ∷ record { input = at.Core event.Store; choice = record { acts = act.Send 1 ∷ []; next = desc.Ask event.Store 0 phase.Ad tag.Plain } } ∷ record { input = at.Core event.Evict; choice = record { acts = act.Skip ∷ []; next = desc.Stable 0 } } ∷ [] } ∷
        record { desc = desc.Stable 1; rows = record { input = at.Core event.Load; choice = record { acts = act.Hit ∷ []; next = desc.Stable 1 } } ∷ record { input = at.Core event.Store; choice = record { acts = act.Send 1 ∷ []; next = desc.Ask event.Store 1 phase.Ad tag.Plain } } ∷ record { input = at.Core event.Evict; choice = record { acts = act.Send 2 ∷ []; next = desc.Leave 1 } } ∷ record { input = at.Forward 4; choice = record { acts = act.Ack ∷ []; next = desc.Stable 0 } } ∷ [] } ∷
        record { desc = desc.Stable 2; rows = record { input = at.Core event.Load; choice = record { acts = act.Hit ∷ []; next = desc.Stable 2 } } ∷ record { input = at.Core event.Store; choice = record { acts = act.Hit ∷ []; next = desc.Stable 2 } } ∷ record { input = at.Core event.Evict; choice = record { acts = act.Send 3 ∷ []; next = desc.Leave 2 } } ∷ record { input = at.Forward 5; choice = record { acts = act.Give 7 ∷ act.Wb ∷ []; next = desc.Stable 1 } } ∷ record { input = at.Forward 6; choice = record { acts = act.Give 7 ∷ []; next = desc.Stable 0 } } ∷ [] } ∷
        record { desc = desc.Ask event.Load 0 phase.D tag.Plain; rows = record { input = at.Forward 4; choice = record { acts = act.Stall ∷ []; next = desc.Ask event.Load 0 phase.D tag.Plain } } ∷ record { input = at.DataAll 7; choice = record { acts = act.Fill ∷ act.Done ∷ []; next = desc.Stable 1 } } ∷ [] } ∷
        record { desc = desc.Ask event.Store 0 phase.Ad tag.Plain; rows = record { input = at.Forward 5; choice = record { acts = act.Stall ∷ []; next = desc.Ask event.Store 0 phase.Ad tag.Plain } } ∷ record { input = at.Forward 6; choice = record { acts = act.Stall ∷ []; next = desc.Ask event.Store 0 phase.Ad tag.Plain } } ∷ record { input = at.DataAll 7; choice = record { acts = act.Fill ∷ act.Done ∷ []; next = desc.Stable 2 } } ∷ record { input = at.DataPart 7; choice = record { acts = act.Fill ∷ act.Need ∷ []; next = desc.Ask event.Store 0 phase.A tag.Plain } } ∷ record { input = at.AckMore; choice = record { acts = act.Count ∷ []; next = desc.Ask event.Store 0 phase.Ad tag.Plain } } ∷ [] } ∷
        record { desc = desc.Ask event.Store 0 phase.A tag.Plain; rows = record { input = at.Forward 5; choice = record { acts = act.Stall ∷ []; next = desc.Ask event.Store 0 phase.A tag.Plain } } ∷ record { input = at.Forward 6; choice = record { acts = act.Stall ∷ []; next = desc.Ask event.Store 0 phase.A tag.Plain } } ∷ record { input = at.AckMore; choice = record { acts = act.Count ∷ []; next = desc.Ask event.Store 0 phase.A tag.Plain } } ∷ record { input = at.AckLast; choice = record { acts = act.Count ∷ act.Done ∷ []; next = desc.Stable 2 } } ∷ [] } ∷
        record { desc = desc.Ask event.Store 1 phase.Ad tag.Plain; rows = record { input = at.Forward 4; choice = record { acts = act.Ack ∷ []; next = desc.Ask event.Store 0 phase.Ad tag.Plain } } ∷ record { input = at.Forward 5; choice = record { acts = act.Stall ∷ []; next = desc.Ask event.Store 1 phase.Ad tag.Plain } } ∷ record { input = at.Forward 6; choice = record { acts = act.Stall ∷ []; next = desc.Ask event.Store 1 phase.Ad tag.Plain } } ∷ record { input = at.DataAll 7; choice = record { acts = act.Fill ∷ act.Done ∷ []; next = desc.Stable 2 } } ∷ record { input = at.DataPart 7; choice = record { acts = act.Fill ∷ act.Need ∷ []; next = desc.Ask event.Store 1 phase.A tag.Plain } } ∷ record { input = at.AckMore; choice = record { acts = act.Count ∷ []; next = desc.Ask event.Store 1 phase.Ad tag.Plain } } ∷ [] } ∷
        record { desc = desc.Ask event.Store 1 phase.A tag.Plain; rows = record { input = at.Forward 5; choice = record { acts = act.Stall ∷ []; next = desc.Ask event.Store 1 phase.A tag.Plain } } ∷ record { input = at.Forward 6; choice = record { acts = act.Stall ∷ []; next = desc.Ask event.Store 1 phase.A tag.Plain } } ∷ record { input = at.AckMore; choice = record { acts = act.Count ∷ []; next = desc.Ask event.Store 1 phase.A tag.Plain } } ∷ record { input = at.AckLast; choice = record { acts = act.Count ∷ act.Done ∷ []; next = desc.Stable 2 } } ∷ [] } ∷
        record { desc = desc.Leave 1; rows = record { input = at.Forward 4; choice = record { acts = act.Ack ∷ []; next = desc.Leave 0 } } ∷ record { input = at.PutAck; choice = record { acts = act.Done ∷ []; next = desc.Stable 0 } } ∷ [] } ∷
        record { desc = desc.Leave 2; rows = record { input = at.Forward 5; choice = record { acts = act.Give 7 ∷ act.Wb ∷ []; next = desc.Leave 1 } } ∷ record { input = at.Forward 6; choice = record { acts = act.Give 7 ∷ []; next = desc.Leave 0 } } ∷ record { input = at.PutAck; choice = record { acts = act.Done ∷ []; next = desc.Stable 0 } } ∷ [] } ∷
        record { desc = desc.Leave 0; rows = record { input = at.PutAck; choice = record { acts = act.Done ∷ []; next = desc.Stable 0 } } ∷ [] } ∷ [] }
    ensures defer { generated_states msi mode.Defer ≡
        record { desc = desc.Stable 0; rows = record { input = at.Core event.Load; choice = record { acts = act.Send 0 ∷ []; next = desc.Ask event.Load 0 phase.D tag.Plain } } ∷ record { input = at.Core event.Store; choice = record { acts = act.Send 1 ∷ []; next = desc.Ask event.Store 0 phase.Ad tag.Plain } } ∷ record { input = at.Core event.Evict; choice = record { acts = act.Skip ∷ []; next = desc.Stable 0 } } ∷ [] } ∷
        record { desc = desc.Stable 1; rows = record { input = at.Core event.Load; choice = record { acts = act.Hit ∷ []; next = desc.Stable 1 } } ∷ record { input = at.Core event.Store; choice = record { acts = act.Send 1 ∷ []; next = desc.Ask event.Store 1 phase.Ad tag.Plain } } ∷ record { input = at.Core event.Evict; choice = record { acts = act.Send 2 ∷ []; next = desc.Leave 1 } } ∷ record { input = at.Forward 4; choice = record { acts = act.Ack ∷ []; next = desc.Stable 0 } } ∷ [] } ∷
        record { desc = desc.Stable 2; rows = record { input = at.Core event.Load; choice = record { acts = act.Hit ∷ []; next = desc.Stable 2 } } ∷ record { input = at.Core event.Store; choice = record { acts = act.Hit ∷ []; next = desc.Stable 2 } } ∷ record { input = at.Core event.Evict; choice = record { acts = act.Send 3 ∷ []; next = desc.Leave 2 } } ∷ record { input = at.Forward 5; choice = record { acts = act.Give 7 ∷ act.Wb ∷ []; next = desc.Stable 1 } } ∷ record { input = at.Forward 6; choice = record { acts = act.Give 7 ∷ []; next = desc.Stable 0 } } ∷ [] } ∷
        record { desc = desc.Ask event.Load 0 phase.D tag.Plain; rows = record { input = at.Forward 4; choice = record { acts = act.Ack ∷ []; next = desc.Ask event.Load 0 phase.D tag.Gone } } ∷ record { input = at.DataAll 7; choice = record { acts = act.Fill ∷ act.Done ∷ []; next = desc.Stable 1 } } ∷ [] } ∷
        record { desc = desc.Ask event.Load 0 phase.D tag.Gone; rows = record { input = at.DataAll 7; choice = record { acts = act.Fill ∷ act.Done ∷ act.Serve ∷ []; next = desc.Stable 0 } } ∷ [] } ∷
        record { desc = desc.Ask event.Store 0 phase.Ad tag.Plain; rows = record { input = at.Forward 5; choice = record { acts = act.Defer ∷ []; next = desc.Ask event.Store 0 phase.Ad tag.Gave } } ∷ record { input = at.Forward 6; choice = record { acts = act.Defer ∷ []; next = desc.Ask event.Store 0 phase.Ad tag.Gone } } ∷ record { input = at.DataAll 7; choice = record { acts = act.Fill ∷ act.Done ∷ []; next = desc.Stable 2 } } ∷ record { input = at.DataPart 7; choice = record { acts = act.Fill ∷ act.Need ∷ []; next = desc.Ask event.Store 0 phase.A tag.Plain } } ∷ record { input = at.AckMore; choice = record { acts = act.Count ∷ []; next = desc.Ask event.Store 0 phase.Ad tag.Plain } } ∷ [] } ∷
        record { desc = desc.Ask event.Store 0 phase.Ad tag.Gave; rows = record { input = at.DataAll 7; choice = record { acts = act.Fill ∷ act.Done ∷ act.Serve ∷ []; next = desc.Stable 1 } } ∷ record { input = at.DataPart 7; choice = record { acts = act.Fill ∷ act.Need ∷ []; next = desc.Ask event.Store 0 phase.A tag.Gave } } ∷ record { input = at.AckMore; choice = record { acts = act.Count ∷ []; next = desc.Ask event.Store 0 phase.Ad tag.Gave } } ∷ [] } ∷
        record { desc = desc.Ask event.Store 0 phase.Ad tag.Gone; rows = record { input = at.DataAll 7; choice = record { acts = act.Fill ∷ act.Done ∷ act.Serve ∷ []; next = desc.Stable 0 } } ∷ record { input = at.DataPart 7; choice = record { acts = act.Fill ∷ act.Need ∷ []; next = desc.Ask event.Store 0 phase.A tag.Gone } } ∷ record { input = at.AckMore; choice = record { acts = act.Count ∷ []; next = desc.Ask event.Store 0 phase.Ad tag.Gone } } ∷ [] } ∷
        record { desc = desc.Ask event.Store 0 phase.A tag.Plain; rows = record { input = at.Forward 5; choice = record { acts = act.Defer ∷ []; next = desc.Ask event.Store 0 phase.A tag.Gave } } ∷ record { input = at.Forward 6; choice = record { acts = act.Defer ∷ []; next = desc.Ask event.Store 0 phase.A tag.Gone } } ∷ record { input = at.AckMore; choice = record { acts = act.Count ∷ []; next = desc.Ask event.Store 0 phase.A tag.Plain } } ∷ record { input = at.AckLast; choice = record { acts = act.Count ∷ act.Done ∷ []; next = desc.Stable 2 } } ∷ [] } ∷
        record { desc = desc.Ask event.Store 0 phase.A tag.Gave; rows = record { input = at.AckMore; choice = record { acts = act.Count ∷ []; next = desc.Ask event.Store 0 phase.A tag.Gave } } ∷ record { input = at.AckLast; choice = record { acts = act.Count ∷ act.Done ∷ act.Serve ∷ []; next = desc.Stable 1 } } ∷ [] } ∷
        record { desc = desc.Ask event.Store 0 phase.A tag.Gone; rows = record { input = at.AckMore; choice = record { acts = act.Count ∷ []; next = desc.Ask event.Store 0 phase.A tag.Gone } } ∷ record { input = at.AckLast; choice = record { acts = act.Count ∷ act.Done ∷ act.Serve ∷ []; next = desc.Stable 0 } } ∷ [] } ∷
        record { desc = desc.Ask event.Store 1 phase.Ad tag.Plain; rows = record { input = at.Forward 4; choice = record { acts = act.Ack ∷ []; next = desc.Ask event.Store 0 phase.Ad tag.Plain } } ∷ record { input = at.Forward 5; choice = record { acts = act.Defer ∷ []; next = desc.Ask event.Store 1 phase.Ad tag.Gave } } ∷ record { input = at.Forward 6; choice = record { acts = act.Defer ∷ []; next = desc.Ask event.Store 1 phase.Ad tag.Gone } } ∷ record { input = at.DataAll 7; choice = record { acts = act.Fill ∷ act.Done ∷ []; next = desc.Stable 2 } } ∷ record { input = at.DataPart 7; choice = record { acts = act.Fill ∷ act.Need ∷ []; next = desc.Ask event.Store 1 phase.A tag.Plain } } ∷ record { input = at.AckMore; choice = record { acts = act.Count ∷ []; next = desc.Ask event.Store 1 phase.Ad tag.Plain } } ∷ [] } ∷
        record { desc = desc.Ask event.Store 1 phase.Ad tag.Gave; rows = record { input = at.DataAll 7; choice = record { acts = act.Fill ∷ act.Done ∷ act.Serve ∷ []; next = desc.Stable 1 } } ∷ record { input = at.DataPart 7; choice = record { acts = act.Fill ∷ act.Need ∷ []; next = desc.Ask event.Store 1 phase.A tag.Gave } } ∷ record { input = at.AckMore; choice = record { acts = act.Count ∷ []; next = desc.Ask event.Store 1 phase.Ad tag.Gave } } ∷ [] } ∷
        record { desc = desc.Ask event.Store 1 phase.Ad tag.Gone; rows = record { input = at.DataAll 7; choice = record { acts = act.Fill ∷ act.Done ∷ act.Serve ∷ []; next = desc.Stable 0 } } ∷ record { input = at.DataPart 7; choice = record { acts = act.Fill ∷ act.Need ∷ []; next = desc.Ask event.Store 1 phase.A tag.Gone } } ∷ record { input = at.AckMore; choice = record { acts = act.Count ∷ []; next = desc.Ask event.Store 1 phase.Ad tag.Gone } } ∷ [] } ∷
        record { desc = desc.Ask event.Store 1 phase.A tag.Plain; rows = record { input = at.Forward 5; choice = record { acts = act.Defer ∷ []; next = desc.Ask event.Store 1 phase.A tag.Gave } } ∷ record { input = at.Forward 6; choice = record { acts = act.Defer ∷ []; next = desc.Ask event.Store 1 phase.A tag.Gone } } ∷ record { input = at.AckMore; choice = record { acts = act.Count ∷ []; next = desc.Ask event.Store 1 phase.A tag.Plain } } ∷ record { input = at.AckLast; choice = record { acts = act.Count ∷ act.Done ∷ []; next = desc.Stable 2 } } ∷ [] } ∷
        record { desc = desc.Ask event.Store 1 phase.A tag.Gave; rows = record { input = at.AckMore; choice = record { acts = act.Count ∷ []; next = desc.Ask event.Store 1 phase.A tag.Gave } } ∷ record { input = at.AckLast; choice = record { acts = act.Count ∷ act.Done ∷ act.Serve ∷ []; next = desc.Stable 1 } } ∷ [] } ∷
        record { desc = desc.Ask event.Store 1 phase.A tag.Gone; rows = record { input = at.AckMore; choice = record { acts = act.Count ∷ []; next = desc.Ask event.Store 1 phase.A tag.Gone } } ∷ record { input = at.AckLast; choice = record { acts = act.Count ∷ act.Done ∷ act.Serve ∷ []; next = desc.Stable 0 } } ∷ [] } ∷
        record { desc = desc.Leave 1; rows = record { input = at.Forward 4; choice = record { acts = act.Ack ∷ []; next = desc.Leave 0 } } ∷ record { input = at.PutAck; choice = record { acts = act.Done ∷ []; next = desc.Stable 0 } } ∷ [] } ∷
        record { desc = desc.Leave 2; rows = record { input = at.Forward 5; choice = record { acts = act.Give 7 ∷ act.Wb ∷ []; next = desc.Leave 1 } } ∷ record { input = at.Forward 6; choice = record { acts = act.Give 7 ∷ []; next = desc.Leave 0 } } ∷ record { input = at.PutAck; choice = record { acts = act.Done ∷ []; next = desc.Stable 0 } } ∷ [] } ∷
        record { desc = desc.Leave 0; rows = record { input = at.PutAck; choice = record { acts = act.Done ∷ []; next = desc.Stable 0 } } ∷ [] } ∷ [] }
    ensures home { dir_generated_states msi ≡
        record { desc = dir.State 0; rows = record { input = met.Ask asks.Read who.Other; choice = record { acts = does.Reply 7 ∷ []; next = dir.State 1 } } ∷ record { input = met.Ask asks.Write who.Other; choice = record { acts = does.Reply 7 ∷ []; next = dir.State 2 } } ∷ record { input = met.EvictNone; choice = record { acts = does.PutAck ∷ []; next = dir.State 0 } } ∷ [] } ∷
        record { desc = dir.State 1; rows = record { input = met.Ask asks.Read who.Other; choice = record { acts = does.Reply 7 ∷ []; next = dir.State 1 } } ∷ record { input = met.Ask asks.Write who.Other; choice = record { acts = does.Inv ∷ does.Reply 7 ∷ []; next = dir.State 2 } } ∷ record { input = met.Ask asks.Write who.Sharer; choice = record { acts = does.Inv ∷ does.Reply 7 ∷ []; next = dir.State 2 } } ∷ record { input = met.Evict who.Sharer left.Last; choice = record { acts = does.PutAck ∷ []; next = dir.State 0 } } ∷ record { input = met.Evict who.Sharer left.More; choice = record { acts = does.PutAck ∷ []; next = dir.State 1 } } ∷ record { input = met.EvictNone; choice = record { acts = does.PutAck ∷ []; next = dir.State 1 } } ∷ [] } ∷
        record { desc = dir.State 2; rows = record { input = met.Ask asks.Read who.Other; choice = record { acts = does.Forward 5 ∷ []; next = dir.Busy 1 } } ∷ record { input = met.Ask asks.Write who.Other; choice = record { acts = does.Forward 6 ∷ []; next = dir.State 2 } } ∷ record { input = met.Evict who.Owner left.Last; choice = record { acts = does.Write ∷ does.PutAck ∷ []; next = dir.State 0 } } ∷ record { input = met.EvictNone; choice = record { acts = does.PutAck ∷ []; next = dir.State 2 } } ∷ [] } ∷
        record { desc = dir.Busy 1; rows = record { input = met.BusyAsk asks.Read; choice = record { acts = does.Stall ∷ []; next = dir.Busy 1 } } ∷ record { input = met.BusyAsk asks.Write; choice = record { acts = does.Stall ∷ []; next = dir.Busy 1 } } ∷ record { input = met.BusyEvict; choice = record { acts = does.Stall ∷ []; next = dir.Busy 1 } } ∷ record { input = met.Wb; choice = record { acts = does.Write ∷ []; next = dir.State 1 } } ∷ [] } ∷ [] }
    ensures mi_stall { generated_states mi mode.Stall ≡
        record { desc = desc.Stable 0; rows = record { input = at.Core event.Load; choice = record { acts = act.Send 0 ∷ []; next = desc.Ask event.Load 0 phase.D tag.Plain } } ∷ record { input = at.Core event.Store; choice = record { acts = act.Send 1 ∷ []; next = desc.Ask event.Store 0 phase.Ad tag.Plain } } ∷ record { input = at.Core event.Evict; choice = record { acts = act.Skip ∷ []; next = desc.Stable 0 } } ∷ [] } ∷
        record { desc = desc.Stable 1; rows = record { input = at.Core event.Load; choice = record { acts = act.Hit ∷ []; next = desc.Stable 1 } } ∷ record { input = at.Core event.Store; choice = record { acts = act.Hit ∷ []; next = desc.Stable 1 } } ∷ record { input = at.Core event.Evict; choice = record { acts = act.Send 2 ∷ []; next = desc.Leave 1 } } ∷ record { input = at.Forward 3; choice = record { acts = act.Give 4 ∷ []; next = desc.Stable 0 } } ∷ [] } ∷
        record { desc = desc.Ask event.Load 0 phase.D tag.Plain; rows = record { input = at.Forward 3; choice = record { acts = act.Stall ∷ []; next = desc.Ask event.Load 0 phase.D tag.Plain } } ∷ record { input = at.DataAll 4; choice = record { acts = act.Fill ∷ act.Done ∷ []; next = desc.Stable 1 } } ∷ [] } ∷
        record { desc = desc.Ask event.Store 0 phase.Ad tag.Plain; rows = record { input = at.Forward 3; choice = record { acts = act.Stall ∷ []; next = desc.Ask event.Store 0 phase.Ad tag.Plain } } ∷ record { input = at.DataAll 4; choice = record { acts = act.Fill ∷ act.Done ∷ []; next = desc.Stable 1 } } ∷ [] } ∷
        record { desc = desc.Leave 1; rows = record { input = at.Forward 3; choice = record { acts = act.Give 4 ∷ []; next = desc.Leave 0 } } ∷ record { input = at.PutAck; choice = record { acts = act.Done ∷ []; next = desc.Stable 0 } } ∷ [] } ∷
        record { desc = desc.Leave 0; rows = record { input = at.PutAck; choice = record { acts = act.Done ∷ []; next = desc.Stable 0 } } ∷ [] } ∷ [] }
    ensures mi_defer { generated_states mi mode.Defer ≡
        record { desc = desc.Stable 0; rows = record { input = at.Core event.Load; choice = record { acts = act.Send 0 ∷ []; next = desc.Ask event.Load 0 phase.D tag.Plain } } ∷ record { input = at.Core event.Store; choice = record { acts = act.Send 1 ∷ []; next = desc.Ask event.Store 0 phase.Ad tag.Plain } } ∷ record { input = at.Core event.Evict; choice = record { acts = act.Skip ∷ []; next = desc.Stable 0 } } ∷ [] } ∷
        record { desc = desc.Stable 1; rows = record { input = at.Core event.Load; choice = record { acts = act.Hit ∷ []; next = desc.Stable 1 } } ∷ record { input = at.Core event.Store; choice = record { acts = act.Hit ∷ []; next = desc.Stable 1 } } ∷ record { input = at.Core event.Evict; choice = record { acts = act.Send 2 ∷ []; next = desc.Leave 1 } } ∷ record { input = at.Forward 3; choice = record { acts = act.Give 4 ∷ []; next = desc.Stable 0 } } ∷ [] } ∷
        record { desc = desc.Ask event.Load 0 phase.D tag.Plain; rows = record { input = at.Forward 3; choice = record { acts = act.Defer ∷ []; next = desc.Ask event.Load 0 phase.D tag.Gone } } ∷ record { input = at.DataAll 4; choice = record { acts = act.Fill ∷ act.Done ∷ []; next = desc.Stable 1 } } ∷ [] } ∷
        record { desc = desc.Ask event.Load 0 phase.D tag.Gone; rows = record { input = at.DataAll 4; choice = record { acts = act.Fill ∷ act.Done ∷ act.Serve ∷ []; next = desc.Stable 0 } } ∷ [] } ∷
        record { desc = desc.Ask event.Store 0 phase.Ad tag.Plain; rows = record { input = at.Forward 3; choice = record { acts = act.Defer ∷ []; next = desc.Ask event.Store 0 phase.Ad tag.Gone } } ∷ record { input = at.DataAll 4; choice = record { acts = act.Fill ∷ act.Done ∷ []; next = desc.Stable 1 } } ∷ [] } ∷
        record { desc = desc.Ask event.Store 0 phase.Ad tag.Gone; rows = record { input = at.DataAll 4; choice = record { acts = act.Fill ∷ act.Done ∷ act.Serve ∷ []; next = desc.Stable 0 } } ∷ [] } ∷
        record { desc = desc.Leave 1; rows = record { input = at.Forward 3; choice = record { acts = act.Give 4 ∷ []; next = desc.Leave 0 } } ∷ record { input = at.PutAck; choice = record { acts = act.Done ∷ []; next = desc.Stable 0 } } ∷ [] } ∷
        record { desc = desc.Leave 0; rows = record { input = at.PutAck; choice = record { acts = act.Done ∷ []; next = desc.Stable 0 } } ∷ [] } ∷ [] }
{}

/// Rows of MOSI and MOESI, as a person works them out. In MOSI, where forwards are put off, those of a store of the owner that may only read, which
/// waits for a count and then for acknowledgements, also once it has met a later forward that keeps it an owner; and the whole table of the
/// directory. In MOESI, where forwards are put off, those of a load; no forward of MOESI gives a copy to memory, so a load has three states.
pub fn worked_rows()
    ensures mosi_om_ac { rows_of mosi mode.Defer (desc.Ask event.Store 2 phase.Ac tag.Plain) ≡
        record { input = at.Forward 6; choice = record { acts = act.Give 8 ∷ []; next = desc.Ask event.Store 2 phase.Ac tag.Plain } } ∷
        record { input = at.Forward 7; choice = record { acts = act.Give 8 ∷ []; next = desc.Ask event.Store 0 phase.Ad tag.Plain } } ∷
        record { input = at.CountAll; choice = record { acts = act.Done ∷ []; next = desc.Stable 3 } } ∷
        record { input = at.CountPart; choice = record { acts = act.Need ∷ []; next = desc.Ask event.Store 2 phase.A tag.Plain } } ∷
        record { input = at.AckMore; choice = record { acts = act.Count ∷ []; next = desc.Ask event.Store 2 phase.Ac tag.Plain } } ∷ [] }
    ensures mosi_om_a { rows_of mosi mode.Defer (desc.Ask event.Store 2 phase.A tag.Plain) ≡
        record { input = at.Forward 6; choice = record { acts = act.Defer ∷ []; next = desc.Ask event.Store 2 phase.A tag.Kept } } ∷
        record { input = at.Forward 7; choice = record { acts = act.Defer ∷ []; next = desc.Ask event.Store 2 phase.A tag.Gone } } ∷
        record { input = at.AckMore; choice = record { acts = act.Count ∷ []; next = desc.Ask event.Store 2 phase.A tag.Plain } } ∷
        record { input = at.AckLast; choice = record { acts = act.Count ∷ act.Done ∷ []; next = desc.Stable 3 } } ∷ [] }
    ensures mosi_om_a_kept { rows_of mosi mode.Defer (desc.Ask event.Store 2 phase.A tag.Kept) ≡
        record { input = at.Forward 6; choice = record { acts = act.Defer ∷ []; next = desc.Ask event.Store 2 phase.A tag.Kept } } ∷
        record { input = at.Forward 7; choice = record { acts = act.Defer ∷ []; next = desc.Ask event.Store 2 phase.A tag.Gone } } ∷
        record { input = at.AckMore; choice = record { acts = act.Count ∷ []; next = desc.Ask event.Store 2 phase.A tag.Kept } } ∷
        record { input = at.AckLast; choice = record { acts = act.Count ∷ act.Done ∷ act.Serve ∷ []; next = desc.Stable 2 } } ∷ [] }
    ensures mosi_home { dir_generated_states mosi ≡
        record { desc = dir.State 0; rows = record { input = met.Ask asks.Read who.Other; choice = record { acts = does.Reply 8 ∷ []; next = dir.State 1 } } ∷ record { input = met.Ask asks.Write who.Other; choice = record { acts = does.Reply 8 ∷ []; next = dir.State 3 } } ∷ record { input = met.EvictNone; choice = record { acts = does.PutAck ∷ []; next = dir.State 0 } } ∷ [] } ∷
        record { desc = dir.State 1; rows = record { input = met.Ask asks.Read who.Other; choice = record { acts = does.Reply 8 ∷ []; next = dir.State 1 } } ∷ record { input = met.Ask asks.Write who.Other; choice = record { acts = does.Inv ∷ does.Reply 8 ∷ []; next = dir.State 3 } } ∷ record { input = met.Ask asks.Write who.Sharer; choice = record { acts = does.Inv ∷ does.Reply 8 ∷ []; next = dir.State 3 } } ∷ record { input = met.Evict who.Sharer left.Last; choice = record { acts = does.PutAck ∷ []; next = dir.State 0 } } ∷ record { input = met.Evict who.Sharer left.More; choice = record { acts = does.PutAck ∷ []; next = dir.State 1 } } ∷ record { input = met.EvictNone; choice = record { acts = does.PutAck ∷ []; next = dir.State 1 } } ∷ [] } ∷
        record { desc = dir.State 2; rows = record { input = met.Ask asks.Read who.Other; choice = record { acts = does.Forward 6 ∷ []; next = dir.State 2 } } ∷ record { input = met.Ask asks.Write who.Other; choice = record { acts = does.Inv ∷ does.Forward 7 ∷ []; next = dir.State 3 } } ∷ record { input = met.Ask asks.Write who.Sharer; choice = record { acts = does.Inv ∷ does.Forward 7 ∷ []; next = dir.State 3 } } ∷ record { input = met.Ask asks.Write who.Owner; choice = record { acts = does.Inv ∷ does.AckCount ∷ []; next = dir.State 3 } } ∷ record { input = met.Evict who.Owner left.Last; choice = record { acts = does.Write ∷ does.PutAck ∷ []; next = dir.State 0 } } ∷ record { input = met.Evict who.Owner left.More; choice = record { acts = does.Write ∷ does.PutAck ∷ []; next = dir.State 1 } } ∷ record { input = met.Evict who.Sharer left.Last; choice = record { acts = does.PutAck ∷ []; next = dir.State 2 } } ∷ record { input = met.Evict who.Sharer left.More; choice = record { acts = does.PutAck ∷ []; next = dir.State 2 } } ∷ record { input = met.EvictNone; choice = record { acts = does.PutAck ∷ []; next = dir.State 2 } } ∷ [] } ∷
        record { desc = dir.State 3; rows = record { input = met.Ask asks.Read who.Other; choice = record { acts = does.Forward 6 ∷ []; next = dir.State 2 } } ∷ record { input = met.Ask asks.Write who.Other; choice = record { acts = does.Forward 7 ∷ []; next = dir.State 3 } } ∷ record { input = met.Evict who.Owner left.Last; choice = record { acts = does.Write ∷ does.PutAck ∷ []; next = dir.State 0 } } ∷ record { input = met.EvictNone; choice = record { acts = does.PutAck ∷ []; next = dir.State 3 } } ∷ [] } ∷ [] }
    ensures moesi_loads { take 4 (drop 5 (descs moesi mode.Defer)) ≡
        desc.Ask event.Load 0 phase.D tag.Plain ∷ desc.Ask event.Load 0 phase.D tag.Kept ∷ desc.Ask event.Load 0 phase.D tag.Gone ∷ desc.Ask event.Store 0 phase.Ad tag.Plain ∷ [] }
    ensures moesi_is_d { rows_of moesi mode.Defer (desc.Ask event.Load 0 phase.D tag.Plain) ≡
        record { input = at.Forward 6; choice = record { acts = act.Ack ∷ []; next = desc.Ask event.Load 0 phase.D tag.Gone } } ∷
        record { input = at.Forward 7; choice = record { acts = act.Defer ∷ []; next = desc.Ask event.Load 0 phase.D tag.Kept } } ∷
        record { input = at.Forward 8; choice = record { acts = act.Defer ∷ []; next = desc.Ask event.Load 0 phase.D tag.Gone } } ∷
        record { input = at.DataAll 9; choice = record { acts = act.Fill ∷ act.Done ∷ []; next = desc.Stable 1 } } ∷
        record { input = at.DataAll 10; choice = record { acts = act.Fill ∷ act.Done ∷ []; next = desc.Stable 3 } } ∷ [] }
    ensures moesi_is_d_kept { rows_of moesi mode.Defer (desc.Ask event.Load 0 phase.D tag.Kept) ≡
        record { input = at.Forward 7; choice = record { acts = act.Defer ∷ []; next = desc.Ask event.Load 0 phase.D tag.Kept } } ∷
        record { input = at.Forward 8; choice = record { acts = act.Defer ∷ []; next = desc.Ask event.Load 0 phase.D tag.Gone } } ∷
        record { input = at.DataAll 10; choice = record { acts = act.Fill ∷ act.Done ∷ act.Serve ∷ []; next = desc.Stable 2 } } ∷ [] }
    ensures moesi_is_d_gone { rows_of moesi mode.Defer (desc.Ask event.Load 0 phase.D tag.Gone) ≡
        record { input = at.DataAll 9; choice = record { acts = act.Fill ∷ act.Done ∷ act.Serve ∷ []; next = desc.Stable 0 } } ∷
        record { input = at.DataAll 10; choice = record { acts = act.Fill ∷ act.Done ∷ act.Serve ∷ []; next = desc.Stable 0 } } ∷ [] }
{}

/// A mixed table of MSI: a load acknowledges a later invalidation at once, and every other later forward waits. So it has one state more than where
/// all wait, that of a load that has met a later invalidation. The rows of the load and of that state are as a person works them out, the others are those
/// of the table where all wait, and the table is sound.
pub fn worked_mix()
    ensures states { msi_mix ≡ take 4 (descs msi mode.Stall) ++ desc.Ask event.Load 0 phase.D tag.Gone ∷ [] ++ drop 4 (descs msi mode.Stall) }
    ensures loads { take 2 (drop 3 (mixed_states msi (acks_at_loads msi) msi_mix)) ≡
        record { desc = desc.Ask event.Load 0 phase.D tag.Plain; rows = record { input = at.Forward 4; choice = record { acts = act.Ack ∷ []; next = desc.Ask event.Load 0 phase.D tag.Gone } } ∷ record { input = at.DataAll 7; choice = record { acts = act.Fill ∷ act.Done ∷ []; next = desc.Stable 1 } } ∷ [] } ∷
        record { desc = desc.Ask event.Load 0 phase.D tag.Gone; rows = record { input = at.DataAll 7; choice = record { acts = act.Fill ∷ act.Done ∷ act.Serve ∷ []; next = desc.Stable 0 } } ∷ [] } ∷ [] }
    ensures before { take 3 (mixed_states msi (acks_at_loads msi) msi_mix) ≡ take 3 (generated_states msi mode.Stall) }
    ensures rest { drop 5 (mixed_states msi (acks_at_loads msi) msi_mix) ≡ drop 4 (generated_states msi mode.Stall) }
    ensures sound { IsSound msi (mixed_table msi (acks_at_loads msi) msi_mix) (dir_table msi) }
{}

/// Of protocols that differ from MSI and MOSI in one thing each, as a person works them out: the states in which the directory waits, in the order of
/// those before which it does, and a row that leads to the second; the rows of an owned state that lists an owner that may only read; and where an owner
/// keeps its copy and then gives it, the states of a store that waits for data, and its rows once it has met a keep.
pub fn worked_variants()
    ensures waiting { dir_descs two_shares ≡ dir.State 0 ∷ dir.State 1 ∷ dir.State 2 ∷ dir.State 3 ∷ dir.State 4 ∷ dir.Busy 1 ∷ dir.Busy 2 ∷ [] }
    ensures shares { dir_rows two_shares (dir.State 3) ≡
        record { input = met.Ask asks.Read who.Other; choice = record { acts = does.Forward 5 ∷ []; next = dir.Busy 2 } } ∷
        record { input = met.Ask asks.Write who.Other; choice = record { acts = does.Forward 6 ∷ []; next = dir.State 4 } } ∷
        record { input = met.Evict who.Owner left.Last; choice = record { acts = does.Write ∷ does.PutAck ∷ []; next = dir.State 0 } } ∷
        record { input = met.EvictNone; choice = record { acts = does.PutAck ∷ []; next = dir.State 3 } } ∷ [] }
    ensures owned_reader { dir_rows owned_reader (dir.State 3) ≡
        record { input = met.Ask asks.Read who.Other; choice = record { acts = does.Forward 6 ∷ []; next = dir.State 2 } } ∷
        record { input = met.Ask asks.Write who.Other; choice = record { acts = does.Forward 7 ∷ []; next = dir.State 3 } } ∷
        record { input = met.Ask asks.Write who.Owner; choice = record { acts = does.AckCount ∷ []; next = dir.State 3 } } ∷
        record { input = met.Evict who.Owner left.Last; choice = record { acts = does.Write ∷ does.PutAck ∷ []; next = dir.State 0 } } ∷
        record { input = met.EvictNone; choice = record { acts = does.PutAck ∷ []; next = dir.State 3 } } ∷ [] }
    ensures gives { take 4 (drop 6 (descs keeps_then_gives mode.Defer)) ≡ desc.Ask event.Store 0 phase.Ad tag.Plain ∷ desc.Ask event.Store 0 phase.Ad tag.Kept
        ∷ desc.Ask event.Store 0 phase.Ad tag.Gave ∷ desc.Ask event.Store 0 phase.Ad tag.Gone ∷ [] }
    ensures kept { rows_of keeps_then_gives mode.Defer (desc.Ask event.Store 0 phase.Ad tag.Kept) ≡
        record { input = at.Forward 5; choice = record { acts = act.Defer ∷ []; next = desc.Ask event.Store 0 phase.Ad tag.Gave } } ∷
        record { input = at.Forward 7; choice = record { acts = act.Defer ∷ []; next = desc.Ask event.Store 0 phase.Ad tag.Gone } } ∷
        record { input = at.DataAll 8; choice = record { acts = act.Fill ∷ act.Done ∷ act.Serve ∷ []; next = desc.Stable 2 } } ∷
        record { input = at.DataPart 8; choice = record { acts = act.Fill ∷ act.Need ∷ []; next = desc.Ask event.Store 0 phase.A tag.Kept } } ∷
        record { input = at.AckMore; choice = record { acts = act.Count ∷ []; next = desc.Ask event.Store 0 phase.Ad tag.Kept } } ∷ [] }
{}
