//! Laws of the definitions that the contracts of this crate cite.

ghost use Rattle.std.specs.Prelude.{ℕ, ◌≡◌, ◌≤◌, ◌↔◌, ◌⊎◌, true, false, List, length, slice_get, Some, None};
ghost use Rattle.std.specs.List.{filter};
ghost use Rattle.pg_perm.specs.declared.kinds.Event.{Event};
ghost use Rattle.pg_perm.specs.declared.kinds.Event.TheVariants.{Load, Store, Evict};
ghost use Rattle.pg_perm.specs.declared.kinds.Who.TheVariants.{Other, Sharer};
ghost use Rattle.pg_perm.specs.declared.kinds.ReqClass.TheVariants.{Read, Write, Clean, Dirty};
ghost use Rattle.pg_perm.specs.declared.kinds.FwdClass.{FwdClass};
ghost use Rattle.pg_perm.specs.declared.kinds.FwdClass.TheVariants.{Inv};
ghost use Rattle.pg_perm.specs.declared.draft.CacheLine.{CacheLine};
ghost use Rattle.pg_perm.specs.declared.draft.CoreLine.{CoreLine};
ghost use Rattle.pg_perm.specs.declared.draft.CoreForm.TheVariants.{Ask, Leave};
ghost use Rattle.pg_perm.specs.declared.draft.DirLine.{DirLine};
ghost use Rattle.pg_perm.specs.declared.draft.Pair.{Pair};
ghost use Rattle.pg_perm.specs.declared.draft.ReplyName.{ReplyName};
ghost use Rattle.pg_perm.specs.declared.draft.ReplyName.TheVariants as reply;
ghost use Rattle.pg_perm.specs.declared.draft.TakeLine.{TakeLine};
ghost use Rattle.pg_perm.specs.declared.draft.RowLine.{RowLine};
ghost use Rattle.pg_terms.specs.declared.cases.DirCase.{DirCase};
ghost use Rattle.pg_perm.specs.declared.draft.Draft.{Draft};
ghost use Rattle.pg_perm.specs.declared.fault.Fault.{Fault};
ghost use Rattle.pg_perm.specs.declared.fault.Rule.TheVariants.{S13};
ghost use Rattle.pg_perm.specs.Drafts.{IsWellFormed};
ghost use Rattle.pg_shape.specs.ShapeFaults.{HasShape, IsShapeFault};
ghost use Rattle.pg_shape.specs.Shaped.{IsCache, IsDir, IsShaped};
ghost use Rattle.pg_shape.specs.CacheRules.{cache_breaks};
ghost use Rattle.pg_shape.specs.CoreRules.{asks_class};
ghost use Rattle.pg_terms.specs.Terms.{is_out, is_shared, is_owner, cache_is, out, shared, has_class, core_row, take_row, is_case};
ghost use Rattle.pg_terms.specs.Due.{is_due, is_load_reply, is_store_reply};
ghost use Rattle.pg_terms.specs.Rows.{final_under};
ghost use Rattle.pg_shape.specs.FirstFaults.{shape_fault};

/// Judging a well-formed draft gives a fault exactly where it is the first one, and none exactly where no line breaks a rule.
pub fn first_fault_is_exact()
    ensures fault { (d : Draft) (f : Fault) → IsWellFormed d → ((shape_fault d ≡ Some f) ↔ IsShapeFault d f) }
    ensures none { (d : Draft) → IsWellFormed d → ((shape_fault d ≡ None) ↔ HasShape d) }
{}

/// What each draft that has the shape gives. Whatever is said of protocols above is derived from these facts, and from no rule.
pub fn what_the_shape_gives()
    ensures given { (d : Draft) → IsWellFormed d → HasShape d → IsShaped d }
{}

/// A cache has a take row only for a forward that is due; an invalidation is due in the shared state alone, and a forward of another class in the state of an owner alone.
pub fn take_rows_are_due()
    ensures only_due { (d : Draft) (s f : ℕ) (t : TakeLine) → HasShape d → take_row d s f ≡ Some t → is_due d s f ≡ true }
    ensures class { (d : Draft) (s f : ℕ) → is_due d s f ≡ true → (class : FwdClass) × (has_class class d f ≡ true) }
    ensures inv { (d : Draft) (s f : ℕ) → is_due d s f ≡ true → has_class Inv d f ≡ true → shared d ≡ Some s }
    ensures other { (d : Draft) (s f : ℕ) → is_due d s f ≡ true → has_class Inv d f ≡ false → cache_is (λ c. is_owner c.role) d s ≡ true }
{}

/// An owner that is clean gives its copy up by a request of class clean or dirty and by no other, and nothing gives up the out state.
pub fn evicts_are_clean_or_dirty()
    ensures clean_owner { (d : Draft) (s m : ℕ) (c : CacheLine) (x : CoreLine) → IsWellFormed d → HasShape d → IsCache d s c → is_owner c.role ≡ true → c.clean ≡ true
        → core_row d s Evict ≡ Some x → x.form ≡ Leave m → (asks_class Clean d m ≡ true) ⊎ (asks_class Dirty d m ≡ true) }
    ensures out { (d : Draft) (s : ℕ) → HasShape d → out d ≡ Some s → core_row d s Evict ≡ None }
{}

/// There are at most twelve owners.
pub fn owners_are_few()
    ensures { (d : Draft) → HasShape d → length (filter (λ c. is_owner c.role) d.caches) ≤ 12 }
{}

/// There is no second out state and no second shared state, no READ or WRITE beside the first, no state twice in one list, and no second line of a case.
pub fn nothing_stands_twice()
    ensures out { (d : Draft) (s t : ℕ) → HasShape d → cache_is (λ c. is_out c.role) d s ≡ true → cache_is (λ c. is_out c.role) d t ≡ true → s ≡ t }
    ensures shared { (d : Draft) (s t : ℕ) → HasShape d → cache_is (λ c. is_shared c.role) d s ≡ true → cache_is (λ c. is_shared c.role) d t ≡ true → s ≡ t }
    ensures read { (d : Draft) (m n : ℕ) → HasShape d → asks_class Read d m ≡ true → asks_class Read d n ≡ true → m ≡ n }
    ensures write { (d : Draft) (m n : ℕ) → HasShape d → asks_class Write d m ≡ true → asks_class Write d n ≡ true → m ≡ n }
    ensures listed { (d : Draft) (n i j s : ℕ) (l : DirLine) → HasShape d → IsDir d n l → slice_get l.beside i ≡ Some s → slice_get l.beside j ≡ Some s → i ≡ j }
    ensures core { (d : Draft) (j k : ℕ) (x y : CoreLine) → HasShape d → slice_get d.cores j ≡ Some x → slice_get d.cores k ≡ Some y → x.state ≡ y.state → x.event ≡ y.event
        → j ≡ k }
    ensures take { (d : Draft) (j k : ℕ) (x y : TakeLine) → HasShape d → slice_get d.takes j ≡ Some x → slice_get d.takes k ≡ Some y → x.state ≡ y.state → x.forward ≡ y.forward
        → j ≡ k }
    ensures row { (d : Draft) (j k : ℕ) (x y : RowLine) (a : DirCase) → HasShape d → slice_get d.rows j ≡ Some x → slice_get d.rows k ≡ Some y → x.dir ≡ y.dir
        → is_case d x.form a ≡ true → is_case d y.form a ≡ true → j ≡ k }
{}

/// Where there is an invalidation there is a shared state to which it goes.
pub fn invalidations_need_a_shared_state()
    ensures { (d : Draft) (f : ℕ) → HasShape d → has_class Inv d f ≡ true → (s : ℕ) × (shared d ≡ Some s) }
{}

/// A core row names no reply twice, and none but those that may come: the load replies at a load; at a store those of others where it begins as out, those of sharers where it begins as shared, and AckCount where it begins as an owner.
pub fn named_replies_may_come()
    ensures once { (d : Draft) (s j k request : ℕ) (event : Event) (pairs : List Pair) (p q : Pair) (x : CoreLine) → IsWellFormed d → HasShape d
        → core_row d s event ≡ Some x → x.form ≡ Ask request pairs → slice_get pairs j ≡ Some p → slice_get pairs k ≡ Some q → p.reply ≡ q.reply → j ≡ k }
    ensures load { (d : Draft) (s t : ℕ) (name : ReplyName) (x : CoreLine) → IsWellFormed d → HasShape d → core_row d s Load ≡ Some x
        → final_under name x.form ≡ Some t → (m : ℕ) × (name ≡ reply.Reply m) × (is_load_reply d m ≡ true) }
    ensures out { (d : Draft) (s t : ℕ) (name : ReplyName) (x : CoreLine) → IsWellFormed d → HasShape d → out d ≡ Some s → core_row d s Store ≡ Some x
        → final_under name x.form ≡ Some t → (m : ℕ) × (name ≡ reply.Reply m) × (is_store_reply d Other m ≡ true) }
    ensures shared { (d : Draft) (s t : ℕ) (name : ReplyName) (x : CoreLine) → IsWellFormed d → HasShape d → shared d ≡ Some s → core_row d s Store ≡ Some x
        → final_under name x.form ≡ Some t → (m : ℕ) × (name ≡ reply.Reply m) × (is_store_reply d Sharer m ≡ true) }
    ensures owner { (d : Draft) (s t : ℕ) (name : ReplyName) (x : CoreLine) → IsWellFormed d → HasShape d → cache_is (λ c. is_owner c.role) d s ≡ true
        → core_row d s Store ≡ Some x → final_under name x.form ≡ Some t → name ≡ reply.AckCount }
{}

/// The line of a cache state breaks S13 exactly where a forward is due in the state without a take row.
pub fn missing_take_rows_are_found()
    ensures { (d : Draft) (s : ℕ) (c : CacheLine) → ((cache_breaks d s c S13 ≡ true) ↔ ((f : ℕ) × (is_due d s f ≡ true) × (take_row d s f ≡ None))) }
{}
