//! Histories and journals that were written by hand.

ghost use Rattle.std.specs.Prelude.{◌≡◌, [], ◌∷◌, codes};
ghost use Rattle.pg_perm.specs.declared.kinds.Event.TheVariants as event;
ghost use Rattle.pg_perm.specs.declared.step.Step.TheVariants.{Txn, Stale, Load, Store};
ghost use Rattle.pg_messages.specs.declared.messages.WorldEvent.TheVariants.{Issue, Request, Ordered, Reply};
ghost use Rattle.pg_history.specs.HistoryText.{block_text, histories_text};
ghost use Rattle.pg_history.specs.JournalText.{journal_text};

/// Transactions and stale evicts are numbered, and an access has the number of the last one; a last line follows the blocks. A journal has a word for
/// each event.
pub fn worked_histories()
    ensures block { block_text 3 (Txn 0 event.Store ∷ Store 0 5 ∷ Stale 1 ∷ Load 0 5 ∷ Txn 12 event.Evict ∷ [])
        ≡ codes "block 3\ntxn 1 c0 store\nacc 1 c0 store 5\nstale 2 c1\nacc 2 c0 load 5\ntxn 3 c12 evict\n" }
    ensures blocks { histories_text (λ b. Load b 0 ∷ []) 2 ≡ codes "block 0\nacc 0 c0 load 0\nblock 1\nacc 0 c1 load 0\nend\n" }
    ensures journal { journal_text 0 ((0, Issue 0) ∷ (0, Request 0) ∷ (1, Ordered 10) ∷ (0, Reply 2) ∷ []) ≡ codes "journal 0 I0 Q0 O10 R2\n" }
    ensures nothing { journal_text 1 [] ≡ codes "journal 1\n" }
{}
