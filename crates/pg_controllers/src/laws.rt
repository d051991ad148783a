//! What the definitions of this crate give for small worlds.

ghost use Rattle.pg_controllers.specs.Worked.{StoreAndLoad, PutOffStore, LateLoad, LoadWaits, SharerStores, LoadBeforeStore, LoadBehindStore, CleanEvict, EvictWaits, StaleEvict, OneCore, Permissions};

/// Runs of small worlds, and what lines may do, as a person works it out.
pub fn worked_runs()
    ensures stalling { StoreAndLoad }
    ensures deferring { PutOffStore }
    ensures late { LateLoad }
    ensures load_waits { LoadWaits }
    ensures upgrade { SharerStores }
    ensures before { LoadBeforeStore }
    ensures behind { LoadBehindStore }
    ensures clean_evict { CleanEvict }
    ensures evict_waits { EvictWaits }
    ensures stale_evict { StaleEvict }
    ensures one_core { OneCore }
    ensures permissions { Permissions }
{}
