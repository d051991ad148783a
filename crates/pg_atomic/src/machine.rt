ghost use Rattle.std.specs.Prelude.{ℕ, ◌≡◌, ◌≢◌, ◌<◌, ◌≤◌, true, nat_lt, length, IfOk, Some, IsSome};
ghost use Rattle.std.specs.List.{list_all};
ghost use Rattle.std.specs.Option.{option_and_then};
ghost use Rattle.pg_perm.specs.declared.step.Step.TheVariants as step;
ghost use Rattle.pg_directory.specs.DirEntries as dir_entries;
ghost use Rattle.pg_directory.specs.Sends.{forward_sent, forward_by_row};
ghost use Rattle.pg_terms.specs.Terms as term;
ghost use Rattle.pg_perm.specs.Drafts.{IsWellFormed};
ghost use Rattle.pg_shape.specs.Shaped.{IsShaped};
ghost use Rattle.pg_terms.specs.Rows as says;
ghost use Rattle.pg_atomic.specs.States as states;
ghost use Rattle.pg_atomic.specs.Steps as steps;
ghost use Rattle.pg_atomic.specs.Accesses as accesses;
ghost use Rattle.pg_atomic.specs.Receivers as receive;
ghost use Rattle.pg_atomic.specs.Safety.{HasItsRows};

use crate::rows;
use pg_directory::CoreSet;
use pg_perm::{Access, Action, DirKind, Draft, Event, ReplyName, ReqClass, RowLine, Who};
use pg_shape::Protocol;
use pg_terms as terms;
use pg_terms::DirCase;
use std::alloc::{AllocError, Global};
use std::marker::Model;

/// The atomic machine of one block: the stable state of each core, the directory's entry of the block, and the block's word.
///
/// Contracts see a state of the machine, docs/MODEL.md has its steps. The calls that take a protocol ask that it is the one with which the
/// machine was made: that the state is one which a run of its machine reaches.
#[derive(Debug, Drop)]
pub struct Atomic {
    /// The state of each core.
    states: Vec<u8>,
    dir: u8,
    owner: Option<u32>,
    sharers: CoreSet,
    word: u32,
}

impl Model for Atomic {
    ghost use Rattle.std.specs.Prelude.{◌≤◌, length};
    ghost use Rattle.pg_atomic.specs.States.{State};

    ghost Value = { State };

    ghost view = { λ a. record { states = a.states.items; entry = record { dir = a.dir; owner = a.owner; sharers = a.sharers }; word = a.word } };

    ghost invariant = { λ a. length a.states.items ≤ 64 };
}

/// Where a transaction led: the state of the core that asked, and that of the directory.
#[derive(Clone, Copy, Debug, PartialEq, Eq)]
pub struct TxnAnswer {
    pub state: u8,
    pub dir: u8,
}

impl Atomic {
    /// The machine of a block at first: no core holds it, and its word is 0.
    pub fn make(alloc: Global, protocol: &Protocol, cores: u32) -> Result<Atomic, AllocError>
        requires some { 1 ≤ cores }
        requires few { cores ≤ 64 }
        ensures opens { IfOk result (λ a. a ≡ states.initial_state protocol.now cores) }
        ensures reached { IfOk result (λ a. steps.IsReached protocol.now cores a) }
    {
        let draft = protocol.draft();
        let cores = cores as usize;
        Ok(Atomic {
            states: vec![in alloc; rows::out(draft); cores]?,
            dir: rows::idle(draft),
            owner: None,
            sharers: CoreSet::new(),
            word: 0,
        })
    }

    /// Whether a core has the permission for a load or a store, or has something to evict.
    pub fn may(&self, protocol: &Protocol, core: u32, event: Event) -> bool
        requires core { core < length self.now.states }
        requires reached { steps.IsReached protocol.now (length self.now.states) self.now }
        ensures { result ≡ steps.may protocol.now (states.state_of self.now core) event }
    {
        rows::may(protocol.draft(), self.states[core as usize], event)
    }

    /// Makes a whole transaction of a core as one step: for a load or a store for which it lacks the permission, or to evict what it holds.
    pub fn txn(&mut self, protocol: &Protocol, core: u32, event: Event) -> TxnAnswer
        requires core { core < length self.old.states }
        requires reached { steps.IsReached protocol.now (length self.old.states) self.old }
        requires needs { steps.needs_transaction protocol.now (states.state_of self.old core) event ≡ true }
        ensures step { self.new ≡ steps.after_step protocol.now self.old (step.Txn core event) }
        ensures reached { steps.IsReached protocol.now (length self.old.states) self.new }
        ensures cores { length self.new.states ≡ length self.old.states }
        ensures permits { event ≢ Event.Evict → steps.may protocol.now (states.state_of self.new core) event ≡ true }
        ensures state { result.state ≡ states.state_of self.new core }
        ensures dir { result.dir ≡ self.new.entry.dir }
    {
        let state = self.transact(protocol.draft(), core, event);
        TxnAnswer {
            state,
            dir: self.dir,
        }
    }

    /// Loads or stores, by a core that has the permission, and gives the word that was loaded or stored.
    pub fn access(&mut self, protocol: &Protocol, core: u32, access: Access) -> u32
        requires core { core < length self.old.states }
        requires reached { steps.IsReached protocol.now (length self.old.states) self.old }
        requires may { steps.may protocol.now (states.state_of self.old core) (accesses.event_of access) ≡ true }
        ensures word { result ≡ accesses.word_of self.old access }
        ensures step { self.new ≡ steps.after_step protocol.now self.old (accesses.step_of core (accesses.word_of self.old access) access) }
        ensures reached { steps.IsReached protocol.now (length self.old.states) self.new }
        ensures cores { length self.new.states ≡ length self.old.states }
    {
        match access {
            Access::Load => self.word,
            Access::Store(word) => {
                self.hit(protocol.draft(), core, word);
                word
            }
        }
    }

    /// The transaction as one step, which gives the state in which the requestor ends.
    fn transact(&mut self, draft: &Draft, core: u32, event: Event) -> u8
        requires well_formed { IsWellFormed draft.now }
        requires shaped { IsShaped draft.now }
        requires core { core < length self.old.states }
        requires reached { steps.IsReached draft.now (length self.old.states) self.old }
        requires needs { steps.needs_transaction draft.now (states.state_of self.old core) event ≡ true }
        ensures step { self.new ≡ states.after_transaction draft.now self.old (record { core = core; event = event }) }
        ensures state { result ≡ states.requestor_end draft.now self.old core event }
    {
        let row = self.row(draft, core, event);
        let end = self.end(draft, core, event, row);
        self.move_cores(draft, core, event, row, end);
        self.note_request(draft, core, event, row);
        end
    }

    /// The row of a request.
    fn row<'a>(&self, draft: &'a Draft, core: u32, event: Event) -> &'a RowLine
        requires core { core < length self.now.states }
        requires rows { HasItsRows draft.now self.now (record { core = core; event = event }) }
        ensures { dir_entries.row_of draft.now self.now.entry (record { core = core; event = event }) ≡ Some result.now }
    {
        terms::dir_row(draft, self.dir, self.case(core, event)).unwrap()
    }

    /// The case of a request.
    fn case(&self, core: u32, event: Event) -> DirCase
        requires { core < length self.now.states }
        ensures { result ≡ dir_entries.case_of self.now.entry (record { core = core; event = event }) }
    {
        let who = self.who(core);
        match event {
            Event::Load => DirCase::Ask(ReqClass::Read, who),
            Event::Store => DirCase::Ask(ReqClass::Write, who),
            Event::Evict => { DirCase::Evict(who, self.sharers.left_without(core)) }
        }
    }

    /// What a core is to the directory.
    fn who(&self, core: u32) -> Who
        requires { core < length self.now.states }
        ensures { result ≡ dir_entries.who self.now.entry core }
    {
        if self.is_owner(core) {
            Who::Owner
        } else if self.sharers.has(core) {
            Who::Sharer
        } else {
            Who::Other
        }
    }

    fn is_owner(&self, core: u32) -> bool
        ensures { result ≡ term.is self.now.entry.owner core }
    {
        self.owner.is_some_and(|owner| owner == core)
    }

    /// The state in which the requestor ends.
    fn end(&self, draft: &Draft, core: u32, event: Event, row: &RowLine) -> u8
        requires well_formed { IsWellFormed draft.now }
        requires shaped { IsShaped draft.now }
        requires core { core < length self.now.states }
        requires owner { (o : ℕ) → self.now.entry.owner ≡ Some o → o < length self.now.states }
        requires row { dir_entries.row_of draft.now self.now.entry (record { core = core; event = event }) ≡ Some row.now }
        requires rows { HasItsRows draft.now self.now (record { core = core; event = event }) }
        ensures { result ≡ states.requestor_end draft.now self.now core event }
    {
        match event {
            Event::Load | Event::Store => self.final_state(draft, core, event, row).unwrap(),
            Event::Evict => rows::out(draft),
        }
    }

    /// The state in which the requestor ends by a reply.
    fn final_state(&self, draft: &Draft, core: u32, event: Event, row: &RowLine) -> Option<u8>
        requires core { core < length self.now.states }
        requires owner { (o : ℕ) → self.now.entry.owner ≡ Some o → o < length self.now.states }
        ensures { result ≡ option_and_then (says.final_state draft.now (states.state_of self.now core) event) (states.reply_by draft.now self.now (says.action_in row.now.form)) }
    {
        let name = self.reply(draft, terms::action_in(row.form)?)?;
        terms::final_state(draft, self.states[core as usize], event, name)
    }

    /// The reply that the requestor gets.
    fn reply(&self, draft: &Draft, action: Action) -> Option<ReplyName>
        requires { (o : ℕ) → self.now.entry.owner ≡ Some o → o < length self.now.states }
        ensures { result ≡ states.reply_by draft.now self.now (Some action) }
    {
        match action {
            Action::Reply(reply) => Some(ReplyName::Reply(reply)),
            Action::Forward(forward) => {
                Some(ReplyName::Reply(self.owners_reply(draft, forward)?))
            }
            Action::Count => Some(ReplyName::AckCount),
        }
    }

    /// What the owner answers to a forward.
    fn owners_reply(&self, draft: &Draft, forward: u8) -> Option<u8>
        requires { (o : ℕ) → self.now.entry.owner ≡ Some o → o < length self.now.states }
        ensures { result ≡ option_and_then (λ o. says.reply_to draft.now (states.state_of self.now o) forward) self.now.entry.owner }
    {
        let owner = self.owner?;
        terms::reply_to(draft, self.states[owner as usize], forward)
    }

    /// The requestor moves to the state in which it ends, and each core that is sent a forward takes it.
    fn move_cores(&mut self, draft: &Draft, core: u32, event: Event, row: &RowLine, end: u8)
        requires well_formed { IsWellFormed draft.now }
        requires core { core < length self.old.states }
        requires owner { (o : ℕ) → self.old.entry.owner ≡ Some o → o < length self.old.states }
        requires sharers { list_all (λ c. nat_lt c (length self.old.states)) self.old.entry.sharers ≡ true }
        requires row { dir_entries.row_of draft.now self.old.entry (record { core = core; event = event }) ≡ Some row.now }
        requires rows { HasItsRows draft.now self.old (record { core = core; event = event }) }
        requires end { end ≡ states.requestor_end draft.now self.old core event }
        ensures { self.new ≡ record self.old { states = states.each_from (states.core_next draft.now self.old (record { core = core; event = event })) 0 self.old.states } }
    {
        self.take_forwards(draft, core, event, row);
        self.states[core as usize] = end;
    }

    /// Each core that is sent a forward takes it.
    fn take_forwards(&mut self, draft: &Draft, core: u32, event: Event, row: &RowLine)
        requires well_formed { IsWellFormed draft.now }
        requires core { core < length self.old.states }
        requires owner { (o : ℕ) → self.old.entry.owner ≡ Some o → o < length self.old.states }
        requires sharers { list_all (λ c. nat_lt c (length self.old.states)) self.old.entry.sharers ≡ true }
        requires row { dir_entries.row_of draft.now self.old.entry (record { core = core; event = event }) ≡ Some row.now }
        requires rows { HasItsRows draft.now self.old (record { core = core; event = event }) }
        ensures { self.new ≡ record self.old { states = states.each_from (states.next_by_forward draft.now self.old.entry (record { core = core; event = event })) 0 self.old.states } }
    {
        let mut left = self.receivers(core, event);
        while let Some(to) = left.pop_first() {
            let next = self.next_by_forward(draft, core, event, row, to);
            self.states[to as usize] = next;
        }
    }

    /// The cores to which a request may send a forward.
    fn receivers(&self, core: u32, event: Event) -> CoreSet
        requires core { core < length self.now.states }
        requires owner { (o : ℕ) → self.now.entry.owner ≡ Some o → o < length self.now.states }
        ensures { result ≡ receive.receivers self.now.entry (record { core = core; event = event }) }
    {
        let mut cores = self.invalidated(event);
        if let Some(owner) = self.owner {
            cores.add(owner);
        }
        cores.remove(core);
        cores
    }

    /// The cores that may be sent an invalidation.
    fn invalidated(&self, event: Event) -> CoreSet
        ensures { result ≡ receive.invalidated self.now.entry event }
    {
        match event {
            Event::Load | Event::Evict => CoreSet::new(),
            Event::Store => self.sharers.copy(),
        }
    }

    /// Where a request of another leads a core, which has a row for the forward that it is sent.
    fn next_by_forward(&self, draft: &Draft, core: u32, event: Event, row: &RowLine, to: u32) -> u8
        requires well_formed { IsWellFormed draft.now }
        requires to { to < length self.now.states }
        requires row { dir_entries.row_of draft.now self.now.entry (record { core = core; event = event }) ≡ Some row.now }
        requires take { (f : ℕ) → forward_sent draft.now self.now.entry (record { core = core; event = event }) to ≡ Some f → IsSome (term.take_row draft.now (states.state_of self.now to) f) }
        ensures { result ≡ states.next_by_forward draft.now self.now.entry (record { core = core; event = event }) to (states.state_of self.now to) }
    {
        let state = self.states[to as usize];
        match self.sent(draft, core, event, row, to) {
            Some(forward) => rows::take_next(draft, state, forward),
            None => state,
        }
    }

    /// The forward that a row of a request sends to a core.
    fn sent(&self, draft: &Draft, core: u32, event: Event, row: &RowLine, to: u32) -> Option<u8>
        requires well_formed { IsWellFormed draft.now }
        requires to { to < length self.now.states }
        ensures { result ≡ forward_by_row draft.now self.now.entry (record { core = core; event = event }) to row.now }
    {
        if core == to {
            None
        } else if event == Event::Store && self.sharers.has(to) {
            rows::inv(draft)
        } else if self.is_owner(to) {
            terms::forward_in(row.form)
        } else {
            None
        }
    }

    /// What the directory knows after a request with this row.
    fn note_request(&mut self, draft: &Draft, core: u32, event: Event, row: &RowLine)
        requires core { core < length self.old.states }
        requires owner { (o : ℕ) → self.old.entry.owner ≡ Some o → o < length self.old.states }
        ensures { self.new ≡ record self.old { entry = dir_entries.entry_after_row draft.now row.now event core self.old.entry } }
    {
        match event {
            Event::Load => self.note_read(draft, core, row),
            Event::Store => self.note_write(core, row),
            Event::Evict => self.note_evict(core, row),
        }
    }

    /// What it knows after a load.
    fn note_read(&mut self, draft: &Draft, core: u32, row: &RowLine)
        requires core { core < length self.old.states }
        requires owner { (o : ℕ) → self.old.entry.owner ≡ Some o → o < length self.old.states }
        ensures { self.new ≡ record self.old { entry = dir_entries.entry_after_row draft.now row.now Event.Load core self.old.entry } }
    {
        if terms::is_by_share(draft, row) {
            self.share();
        }
        if terms::kind_is(DirKind::Owned, draft, row.next) {
            self.owner = Some(core);
        } else {
            self.sharers.add(core);
        }
        self.dir = row.next;
    }

    /// A share makes the owner a sharer.
    fn share(&mut self)
        requires { (o : ℕ) → self.old.entry.owner ≡ Some o → o < length self.old.states }
        ensures { self.new ≡ record self.old { entry = dir_entries.entry_after_share self.old.entry } }
    {
        if let Some(owner) = self.owner.take() {
            self.sharers.add(owner);
        }
    }

    /// What it knows after a store.
    fn note_write(&mut self, core: u32, row: &RowLine)
        ensures { self.new ≡ record self.old { entry = dir_entries.entry_after_write row.now core self.old.entry } }
    {
        self.owner = Some(core);
        self.sharers.clear();
        self.dir = row.next;
    }

    /// What it knows after an evict.
    fn note_evict(&mut self, core: u32, row: &RowLine)
        requires { core < length self.old.states }
        ensures { self.new ≡ record self.old { entry = dir_entries.entry_after_evict row.now core self.old.entry } }
    {
        if self.is_owner(core) {
            self.owner = None;
        }
        self.sharers.remove(core);
        self.dir = row.next;
    }

    /// A store of a core that may write.
    fn hit(&mut self, draft: &Draft, core: u32, word: u32)
        requires { core < length self.old.states }
        ensures { self.new ≡ steps.after_step draft.now self.old (step.Store core word) }
    {
        let core = core as usize;
        self.states[core] = rows::hit_next(draft, self.states[core]);
        self.word = word;
    }
}
