//! Laws of the definitions of this crate.

ghost use Rattle.std.specs.Prelude.{ℕ, suc, ◌≡◌, ◌≢◌, ◌≤◌, ◌<◌, List, [], true};
ghost use Rattle.pg_perm.specs.declared.step.Step.{Step};
ghost use Rattle.pg_perm.specs.declared.step.Step.TheVariants.{Load, Store};
ghost use Rattle.pg_perm.specs.declared.kinds.Who.TheVariants.{Other};
ghost use Rattle.pg_perm.specs.declared.kinds.Event.TheVariants as event;
ghost use Rattle.pg_directory.specs.DirEntries.{who};
ghost use Rattle.pg_atomic.specs.States.{state_of, hit_next};
ghost use Rattle.pg_perm.specs.declared.draft.Draft.{Draft};
ghost use Rattle.pg_perm.specs.Drafts.{IsWellFormed};
ghost use Rattle.pg_shape.specs.Shaped.{IsShaped};
ghost use Rattle.pg_atomic.specs.Steps.{IsRun, IsAllowed, may};
ghost use Rattle.std.specs.Prelude.{◌+◌, ◌∷◌, ◌++◌, length};
ghost use Rattle.pg_serial.specs.Serial.{Entry, Done, Loaded, Stored, by_core, done_step, groups, serial_of, accesses_of, made_by, Rises, StampedTo};
ghost use Rattle.std.specs.Prelude.{false};
ghost use Rattle.pg_directory.specs.Sound.{fits};
ghost use Rattle.pg_serial.specs.Worked.{WorkedRows};
ghost use Rattle.pg_serial.specs.Moves.{Grouping, Handling};
ghost use Rattle.pg_serial.specs.Groups.{requestor};
ghost use Rattle.pg_serial.specs.Serial.{entry_at};
ghost use Rattle.pg_serial.specs.Faithful.{IsBounded, Looks, Shown, Change, stored, Level, run_of, top_of, shown_entry, IsFaithful, IsGranted, IsAlone};
ghost use Rattle.pg_serial.specs.Groups.{Groups, IsRunTo, HasAccesses, Inserts, IsLoaded, IsStored, IsFresh, HasEntries, OwnerSilent, IsQuiet, at, base, serial, dir_entry_after};

/// A run in groups is a run of the atomic machine.
pub fn groups_are_runs()
    ensures { (d : Draft) (n : ℕ) (g : Groups) (top : ℕ) → IsRunTo d n g top → IsRun d n (serial g top) }
{}

/// What the directory knows in the states between follows from the entries alone.
pub fn entries_follow_the_order()
    ensures { (d : Draft) (n : ℕ) (g : Groups) → HasAccesses g → (k : ℕ)
        → ((base d n g k).entry ≡ dir_entry_after d g.entry k) × ((at d n g k).entry ≡ dir_entry_after d g.entry k) }
{}

/// An entry that is allowed after a run makes a longer one.
pub fn entries_append()
    ensures { (d : Draft) (n : ℕ) (g : Groups) (top : ℕ) → IsRunTo d n g top → (new : ℕ → Step) → ((j : ℕ) → j < top → new j ≡ g.entry j)
        → IsAllowed d (at d n g top) (new top) → g.group (suc top) ≡ [] → IsRunTo d n (record g { entry = new }) (suc top) }
{}

/// A load of a core that holds something is inserted into its group.
pub fn loads_insert()
    ensures { (d : Draft) → IsWellFormed d → IsShaped d → (n : ℕ) (g : Groups) (top : ℕ) → IsRunTo d n g top → HasAccesses g
        → (k : ℕ) → k ≤ top → (new : ℕ → List Step) (c v : ℕ) → c < n → who (dir_entry_after d g.entry k) c ≢ Other → v ≡ (at d n g k).word
        → Inserts g.group new k c (Load c v) → IsLoaded d n g (record g { group = new }) top }
{}

/// A store of a core that may write, after whose grant nothing was served, is inserted into its group.
pub fn stores_insert()
    ensures { (d : Draft) → IsWellFormed d → IsShaped d → (n : ℕ) (g : Groups) (top : ℕ) → IsRunTo d n g top → HasAccesses g
        → (k : ℕ) → k ≤ top → IsFresh d n g k top → (new : ℕ → List Step) (c v : ℕ) → c < n → may d (state_of (at d n g k) c) event.Store ≡ true
        → Inserts g.group new k c (Store c v) → IsStored d n g (record g { group = new }) k top c v }
{}

/// A completed access is inserted into its group.
pub fn accesses_are_placed()
    ensures { (n : ℕ) (done : List Done) (x : Done) → x.core < n
        → Inserts (λ k. by_core done k n) (λ k. by_core (done ++ x ∷ []) k n) x.stamp x.core (done_step x) }
{}

/// Each core's accesses stand in the run in the order in which they completed.
pub fn accesses_keep_their_order()
    ensures { (n : ℕ) (order : List Entry) (done : List Done) (c : ℕ) → c < n → Rises c 0 done → StampedTo c (length order) done
        → accesses_of c (serial_of n order done) ≡ made_by c done }
{}

/// The word stays as it is where no owner makes an access.
pub fn words_stay()
    ensures { (d : Draft) → IsWellFormed d → IsShaped d → (n : ℕ) (g : Groups) (top : ℕ) → IsRunTo d n g top → HasAccesses g → HasEntries g
        → (a b : ℕ) → a ≤ b → b ≤ top → ((j : ℕ) → a < j → j ≤ b → OwnerSilent d g j) → (at d n g b).word ≡ (at d n g a).word }
{}

/// Behind a grant of which nothing was served no access is placed.
pub fn grants_are_fresh()
    ensures { (d : Draft) → IsWellFormed d → IsShaped d → (n : ℕ) (w : Shown) (g c : ℕ) → IsFaithful d n w → IsGranted d n w g c
        → IsFresh d n (run_of n w) g (top_of w) }
{}

/// A load that hits keeps what is said of the run.
pub fn load_hits_are_faithful()
    ensures { (d : Draft) → IsWellFormed d → IsShaped d → (n : ℕ) (w : Shown) (c st : ℕ) → IsFaithful d n w → c < n → (w.core c).stand ≡ Level st
        → (w.core c).pending ≡ false → (w.core c).seen ≤ top_of w → fits d (shown_entry d w (w.core c).seen) c st ≡ true → may d st event.Load ≡ true
        → IsFaithful d n (record w { done = w.done ++ record { stamp = (w.core c).stamp; core = c; made = Loaded (w.core c).word; late = false } ∷ [] }) }
{}

/// A store that hits keeps what is said of the run.
pub fn store_hits_are_faithful()
    ensures { (d : Draft) → IsWellFormed d → IsShaped d → (n : ℕ) (w : Shown) (u : Change) (c st v : ℕ)
        → IsFaithful d n w → IsGranted d n w (w.core c).seen c → IsAlone d n w u (w.core c).seen c v → (w.core c).stand ≡ Level st
        → who (shown_entry d w (w.core c).seen) c ≢ Other → may d st event.Store ≡ true → u.sent ≡ []
        → u.core c ≡ record (w.core c) { stand = Level (hit_next d st); word = v; pending = false }
        → IsFaithful d n (stored w u (record { stamp = (w.core c).stamp; core = c; made = Stored v; late = false })) }
{}

/// A request that is handled keeps what is said of the run.
pub fn requests_are_faithful()
    ensures { Handling }
{}

#[tactic(auto, using(crate::proofs::Completes::store_completes, crate::proofs::Completes::answer_told, crate::proofs::Fills::load_fills, crate::proofs::Rest::load_late, crate::proofs::Allowed::heard_allowed))]
/// The order with the accesses placed in it is a run of the atomic machine, in which each core's accesses stand in its order.
pub fn serial_is_a_run()
    ensures { (d : Draft) (n : ℕ) (w : Shown) → IsFaithful d n w → IsBounded n w
        → IsRun d n (serial_of n w.order w.done) × ((c : ℕ) → c < n → accesses_of c (serial_of n w.order w.done) ≡ made_by c w.done) }
{}

/// Groups are sorted.
pub fn groups_are_sorted()
    ensures { Grouping }
{}

/// The rows computed by hand.
pub fn worked_rows_stand()
    ensures { WorkedRows }
{}
