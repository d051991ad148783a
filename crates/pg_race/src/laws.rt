//! Laws of the race order, by which a person can check it without its table.

ghost use Rattle.std.specs.Prelude.{◌≡◌, ◌≢◌, Bool, true, false};
ghost use Rattle.pg_perm.specs.declared.kinds.Role.{Role};
ghost use Rattle.pg_perm.specs.declared.kinds.Role.TheVariants as role;
ghost use Rattle.pg_perm.specs.declared.kinds.Event.{Event};
ghost use Rattle.pg_perm.specs.declared.kinds.Event.TheVariants as event;
ghost use Rattle.pg_perm.specs.declared.kinds.FwdClass.{FwdClass};
ghost use Rattle.pg_perm.specs.declared.kinds.FwdClass.TheVariants as class;
ghost use Rattle.pg_perm.specs.declared.kinds.Side.TheVariants as side_is;
ghost use Rattle.pg_race.specs.Sides.{side, IsOutstanding};

/// A load is outstanding only where the cache held nothing before it, since a sharer and an owner hit. A store is outstanding from any state,
/// also one that is granted. An evict is granted nothing: it ends with its acknowledgement.
pub fn loads_begin_as_out()
    ensures load { (start : Role) (granted : Bool) → IsOutstanding start event.Load granted → start ≡ role.Out }
    ensures load_of_out { (granted : Bool) → IsOutstanding role.Out event.Load granted }
    ensures store { (start : Role) (granted : Bool) → IsOutstanding start event.Store granted }
    ensures evict { (start : Role) → IsOutstanding start event.Evict true → ⊥ }
    ensures evict_of_any { (start : Role) → IsOutstanding start event.Evict false }
{}

/// What was granted is ordered: each forward that comes then is later, whatever it is and whatever the operation.
pub fn grants_come_before_forwards()
    ensures { (start : Role) (e : Event) (c : FwdClass) → side start e true c ≡ side_is.After }
{}

/// The directory sends forwards to sharers and to the owner alone. So whoever held nothing was sent one only after its own request was handled. An owner
/// that isn't granted yet is still the owner that earlier requests are passed on to, and so is whoever evicts. A sharer that stores is sent the
/// invalidation of a store that came first, and is asked as an owner only once its own store was handled.
pub fn forwards_go_to_holders()
    ensures out_load { (c : FwdClass) → side role.Out event.Load false c ≡ side_is.After }
    ensures out_store { (c : FwdClass) → side role.Out event.Store false c ≡ side_is.After }
    ensures owner { (e : Event) (c : FwdClass) → IsOutstanding role.Owner e false → side role.Owner e false c ≡ side_is.Before }
    ensures evictor { (start : Role) (c : FwdClass) → side start event.Evict false c ≡ side_is.Before }
    ensures sharer_invalidated { side role.Shared event.Store false class.Inv ≡ side_is.Before }
    ensures sharer_asked { (c : FwdClass) → c ≢ class.Inv → side role.Shared event.Store false c ≡ side_is.After }
{}
