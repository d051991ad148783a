//! Laws of the definitions that the contracts of this crate cite.

ghost use Rattle.std.specs.Prelude.{ℕ, ◌≡◌, ◌≢◌, ◌<◌, ◌==◌, ◌∷◌, ◌++◌, true, false, List, length};
ghost use Rattle.pg_perm.specs.declared.draft.Draft.{Draft};
ghost use Rattle.pg_perm.specs.declared.kinds.Event.{Event};
ghost use Rattle.pg_perm.specs.declared.kinds.Event.TheVariants.{Evict};
ghost use Rattle.pg_perm.specs.declared.kinds.Op.{Op};
ghost use Rattle.pg_perm.specs.declared.step.Step.{Step};
ghost use Rattle.pg_perm.specs.declared.step.Step.TheVariants as step;
ghost use Rattle.pg_perm.specs.Drafts.{IsWellFormed};
ghost use Rattle.pg_shape.specs.Shaped.{IsShaped};
ghost use Rattle.pg_terms.specs.Terms.{cache_is};
ghost use Rattle.pg_shape.specs.CoreRules.{is_dirty_writer};
ghost use Rattle.pg_directory.specs.DirEntries.{Request, initial_entry, entry_after_all};
ghost use Rattle.pg_directory.specs.Sound.{IsLegal, AreLegal};
ghost use Rattle.pg_atomic.specs.States.{State, state_of, initial_state, next_by_forward, requestor_end, after_transaction};
ghost use Rattle.pg_atomic.specs.Steps.{IsAllowed, AreAllowed, IsReached, IsRun, may, needs_transaction, after_step, after_steps, requests_of};
ghost use Rattle.pg_atomic.specs.Scripts.{AreOfCores, steps_of};
ghost use Rattle.pg_atomic.specs.Safety.{IsSafe, RunsSafely};
ghost use Rattle.pg_samples.specs.Drafts.{mesi};
ghost use Rattle.pg_atomic.specs.Stores.{last_word_stored};
ghost use Rattle.pg_atomic.specs.Worked.{states_after_each, mesi_steps, mesi_states, passing_protocol, passing_steps, passing_states};

/// In each state that a run of the atomic machine reaches, each transaction has its rows, and where a core may write no other may read or
/// write.
pub fn runs_are_safe()
    ensures { (d : Draft) (n : ℕ) (a : State) → IsWellFormed d → IsShaped d → IsReached d n a → RunsSafely d n a }
{}

/// The steps of operations of cores that there are, one after another, are a run of the atomic machine.
pub fn operations_are_runs()
    ensures { (d : Draft) (n : ℕ) (ops : List (ℕ × Op)) → IsWellFormed d → IsShaped d → AreOfCores n ops → IsRun d n (steps_of d (initial_state d n) ops) }
{}

/// What the directory knows after steps is the fold of the requests among them.
pub fn entries_follow_requests()
    ensures { (d : Draft) (a : State) (steps : List Step) → (after_steps d a steps).entry ≡ entry_after_all d a.entry (requests_of steps) }
{}

/// On every run each load gives the word of the last store before it, or 0 where there is none.
pub fn loads_give_the_last_store()
    ensures { (d : Draft) (n : ℕ) (before after : List Step) (c v : ℕ) → IsRun d n (before ++ step.Load c v ∷ after) → v ≡ last_word_stored before }
{}

/// In each safe state, reached or not, each transaction has its rows, and where a core may write no other may read or write.
pub fn safe_states_run_safely()
    ensures { (d : Draft) (a : State) → IsWellFormed d → IsShaped d → IsSafe d a → RunsSafely d (length a.states) a }
{}

/// A step that may be taken leads from any safe state to a safe one, with as many cores.
pub fn steps_keep_safety()
    ensures { (d : Draft) (a : State) (x : Step) → IsWellFormed d → IsShaped d → IsSafe d a → IsAllowed d a x
        → IsSafe d (after_step d a x) × (length (after_step d a x).states ≡ length a.states) }
{}

/// A state that lacks the permission for a load or a store, or has something to evict, makes that request legal.
pub fn needed_requests_are_legal()
    ensures { (d : Draft) (a : State) (q : Request) → IsShaped d → IsSafe d a → q.core < length a.states → needs_transaction d (state_of a q.core) q.event ≡ true
        → IsLegal d a.entry q }
{}

/// The requests of a run are legal one after another, each where those before it led the directory.
pub fn runs_make_legal_requests()
    ensures { (d : Draft) (n : ℕ) (steps : List Step) → IsWellFormed d → IsShaped d → IsRun d n steps → AreLegal d n (initial_entry d) (requests_of steps) }
{}

/// Steps in two parts may be taken where the first part may be, and the second from where that leads; and a run goes on by each step that may be taken.
pub fn runs_in_parts()
    ensures joined { (d : Draft) (a : State) (xs ys : List Step) → AreAllowed d a xs → AreAllowed d (after_steps d a xs) ys → AreAllowed d a (xs ++ ys) }
    ensures parts { (d : Draft) (a : State) (xs ys : List Step) → AreAllowed d a (xs ++ ys) → AreAllowed d a xs × AreAllowed d (after_steps d a xs) ys }
    ensures leads { (d : Draft) (a : State) (xs ys : List Step) → after_steps d a (xs ++ ys) ≡ after_steps d (after_steps d a xs) ys }
    ensures more { (d : Draft) (n : ℕ) (a : State) (x : Step) → IsReached d n a → IsAllowed d a x → IsReached d n (after_step d a x) }
{}

/// After a transaction the requestor is where its reply leads it, and may do what it asked for, and each other core is where its forward leads it.
pub fn transactions_move_each_core()
    ensures requestor { (d : Draft) (a : State) (q : Request) → q.core < length a.states → state_of (after_transaction d a q) q.core ≡ requestor_end d a q.core q.event }
    ensures others { (d : Draft) (a : State) (q : Request) (c : ℕ) → c < length a.states → (q.core == c) ≡ false
        → state_of (after_transaction d a q) c ≡ next_by_forward d a.entry q c (state_of a c) }
    ensures granted { (d : Draft) (a : State) (c : ℕ) (e : Event) → IsWellFormed d → IsShaped d → IsSafe d a → IsAllowed d a (step.Txn c e) → e ≢ Evict
        → may d (state_of (after_step d a (step.Txn c e)) c) e ≡ true }
{}

/// After a store its core is an owner that may write and isn't clean, and each other core is in the state in which it was.
pub fn stores_leave_dirty_owners()
    ensures dirty { (d : Draft) (a : State) (c v : ℕ) → IsShaped d → IsSafe d a → IsAllowed d a (step.Store c v)
        → cache_is is_dirty_writer d (state_of (after_step d a (step.Store c v)) c) ≡ true }
    ensures others { (d : Draft) (a : State) (c v e : ℕ) → (c == e) ≡ false → state_of (after_step d a (step.Store c v)) e ≡ state_of a e }
{}

/// Two runs by hand, with the whole state after each step: MESI, and a protocol with two owners that may only read.
pub fn worked_runs()
    ensures mesi { IsRun mesi 2 mesi_steps }
    ensures mesi_states { states_after_each mesi (initial_state mesi 2) mesi_steps ≡ mesi_states }
    ensures passing { IsRun passing_protocol 3 passing_steps }
    ensures passing_states { states_after_each passing_protocol (initial_state passing_protocol 3) passing_steps ≡ passing_states }
{}
