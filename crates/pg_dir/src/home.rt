ghost use Rattle.std.specs.Prelude.{ℕ, ◌≡◌, ◌<◌, ◌≤◌, ◌+◌, suc, length, Some, IfNone, IfSome, IsSome, slice_get, false, true, position};
ghost use Rattle.std.specs.Option.{option_map};
ghost use Rattle.pg_perm.specs.Drafts.{IsWellFormed};
ghost use Rattle.pg_perm.specs.declared.kinds.Event.TheVariants as event_of;
ghost use Rattle.pg_shape.specs.Shaped.{IsShaped};
ghost use Rattle.pg_terms.specs.Terms as term;
ghost use Rattle.pg_directory.specs.DirEntries as entries;
ghost use Rattle.pg_order.specs.Orders as orders;
ghost use Rattle.pg_table.specs.Tables.{find_dir_row};
ghost use Rattle.pg_table.specs.declared.directory.DirInput.TheVariants as met;
ghost use Rattle.pg_controllers.specs.Directories as dirs;
ghost use Rattle.pg_queue.specs.Nets as nets;
ghost use Rattle.pg_dir.specs.Effects as effect;
ghost use Rattle.pg_dir.specs.Numbers as numbers;

use pg_directory::CoreSet;
use pg_messages::{Ask, Ordered, Reply};
use pg_perm::{DirKind, Draft, Event, FwdClass, ReqClass, RowLine, Who};
use pg_queue::Wires;
use pg_table::{DirAct, DirDesc, DirInput, DirRow, Tables};
use pg_terms as terms;
use pg_terms::DirCase;
use std::marker::Model;

/// The directory controller of a block: its state, memory's word, the owner, the sharers, and the stamp of the last request that it handled.
///
/// Each call carries out one row of the directory's table; docs/TABLES.md has the rows. The calls that take tables ask that the state has its
/// place in them, which each call keeps, and a call that takes the networks asks that they are those of as many cores.
#[derive(Drop)]
pub struct Home {
    cores: u32,
    number: u16,
    desc: DirDesc,
    memory: u32,
    owner: Option<u32>,
    sharers: CoreSet,
    last: u32,
}

impl Model for Home {
    ghost use Rattle.pg_dir.specs.Numbers.{NumberedDirectory, IsInside};

    ghost Value = { NumberedDirectory };

    ghost view = { λ h. record { cores = h.cores; number = h.number; directory = record { desc = h.desc; memory = h.memory; owner = h.owner; sharers = h.sharers; last = h.last } } };

    ghost invariant = { λ h. IsInside h.cores h.owner h.sharers };
}

/// A request that was handled: its stamp, and whether it was an evict of a core that held nothing.
#[derive(Clone, Copy, Debug, PartialEq, Eq)]
pub struct Sent {
    pub stamp: u32,
    pub stale: bool,
}

/// The request for which acts are done: its core, its stamp, and the word that it brings.
#[derive(Clone, Copy)]
struct Given {
    core: u32,
    stamp: u32,
    word: Option<u32>,
}

impl Home {
    #[tactic(auto, using(crate::proofs::Starts::idle_place, crate::proofs::Starts::made_initial))]
    /// The directory of a block of 1 to 64 cores at first: idle, with no owner and no sharers, memory's word 0, and no request handled. It takes no
    /// memory.
    pub fn make(t: &Tables, cores: u32) -> Home
        requires { cores ≤ 64 }
        ensures cores { result.cores ≡ cores }
        ensures initial { result.directory ≡ numbers.initial_directory t.now.protocol }
        ensures place { numbers.IsNumbered t.now.home result }
    {
        let dir = idle(t.protocol().draft());
        Home {
            cores,
            number: u16::from(dir),
            desc: DirDesc::State(dir),
            memory: 0,
            owner: None,
            sharers: CoreSet::new(),
            last: 0,
        }
    }

    /// Whether it waits for data that an owner writes back. Then each request waits.
    pub fn busy(&self) -> bool
        ensures { result ≡ dirs.is_busy self.now.directory.desc }
    {
        match self.desc {
            DirDesc::State(_) => false,
            DirDesc::Busy(_) => true,
        }
    }

    /// Memory's word.
    pub fn memory(&self) -> u32
        ensures { result ≡ self.now.directory.memory }
    {
        self.memory
    }

    /// The owner, or none where there is none.
    pub fn owner(&self) -> Option<u32>
        ensures { result ≡ self.now.directory.owner }
    {
        self.owner
    }

    /// Whether a core is among the sharers.
    pub fn is_sharer(&self, core: u32) -> bool
        requires { core < 64 }
        ensures { result ≡ entries.is_among self.now.directory.sharers core }
    {
        self.sharers.has(core)
    }

    /// Handles a request while it isn't busy: carries out its row, and gives it the next stamp.
    pub fn take_request(&mut self, t: &Tables, core: u32, a: Ask, w: &mut Wires) -> Sent
        requires place { numbers.IsNumbered t.now.home self.old }
        requires idle { dirs.is_busy self.old.directory.desc ≡ false }
        requires row { IsSome (effect.choice_by t.now.protocol self.old.directory core a) }
        requires cores { length w.old.slots ≡ self.old.cores }
        requires core { core < self.old.cores }
        requires stamp { self.old.directory.last < 4294967295 }
        requires spare { effect.HasRoomFor t.now.protocol self.old.directory core a w.old }
        ensures handled { record { directory = self.new.directory; nets = w.new } ≡ effect.result_of_request t.now.protocol core a self.old.directory w.old }
        ensures place { numbers.IsNumbered t.now.home self.new }
        ensures cores { self.new.cores ≡ self.old.cores }
        ensures stamp { result.stamp ≡ suc self.old.directory.last }
        ensures stale { result.stale ≡ orders.is_stale (dirs.dir_entry_of self.old.directory) (effect.request_by core a) }
    {
        let draft = t.protocol().draft();
        let row = self.row(t, core, a.event);
        let stale = self.is_stale(core, a.event);
        let given = Given {
            core,
            stamp: self.last + 1,
            word: a.word,
        };
        self.drive(t, draft, row, given, a.event, w);
        Sent {
            stamp: self.last,
            stale,
        }
    }

    /// Takes the data that an owner writes back, for which it waits. Another reply changes nothing.
    pub fn take_wb(&mut self, t: &Tables, m: Reply)
        requires place { numbers.IsNumbered t.now.home self.old }
        requires busy { dirs.is_busy self.old.directory.desc ≡ true }
        ensures written { IfSome (effect.word_written_back m) (λ word. self.new.directory ≡ effect.write_back t.now.protocol word self.old.directory) }
        ensures other { IfNone (effect.word_written_back m) (self.new ≡ self.old) }
        ensures place { numbers.IsNumbered t.now.home self.new }
        ensures cores { self.new.cores ≡ self.old.cores }
    {
        if let Reply::WbData { word, .. } = m {
            self.write_back(t, word);
        }
    }

    fn write_back(&mut self, t: &Tables, word: u32)
        requires place { numbers.IsNumbered t.now.home self.old }
        requires busy { dirs.is_busy self.old.directory.desc ≡ true }
        ensures written { self.new.directory ≡ effect.write_back t.now.protocol word self.old.directory }
        ensures place { numbers.IsNumbered t.now.home self.new }
        ensures cores { self.new.cores ≡ self.old.cores }
    {
        // The row is there, since the draft is well formed.
        let _draft = t.protocol().draft();
        let row = self.wb_row(t);
        self.memory = word;
        self.number = row.next;
        self.desc = t.home().desc(row.next);
    }

    fn wb_row<'a>(&self, t: &'a Tables) -> &'a DirRow
        requires { IsSome (find_dir_row t.now.home self.now.number met.Wb) }
        ensures { find_dir_row t.now.home self.now.number met.Wb ≡ Some result.now }
    {
        t.home().find(self.number, DirInput::Wb).unwrap()
    }

    fn is_owner(&self, core: u32) -> bool
        ensures { result ≡ term.is self.now.directory.owner core }
    {
        self.owner.is_some_and(|owner| owner == core)
    }

    /// What a core is to the directory.
    fn who(&self, core: u32) -> Who
        requires { core < 64 }
        ensures { result ≡ entries.who (dirs.dir_entry_of self.now.directory) core }
    {
        if self.is_owner(core) {
            Who::Owner
        } else if self.sharers.has(core) {
            Who::Sharer
        } else {
            Who::Other
        }
    }

    fn is_stale(&self, core: u32, event: Event) -> bool
        requires { core < 64 }
        ensures { result ≡ orders.is_stale (dirs.dir_entry_of self.now.directory) (record { core = core; event = event }) }
    {
        event == Event::Evict && self.who(core) == Who::Other
    }

    /// What a request is to the directory.
    fn input(&self, core: u32, event: Event) -> DirInput
        requires { core < 64 }
        ensures { result ≡ dirs.dir_input self.now.directory.desc (dirs.dir_entry_of self.now.directory) (record { core = core; event = event }) }
    {
        match self.desc {
            DirDesc::State(_) => self.request_input(core, event),
            DirDesc::Busy(_) => match event {
                Event::Load => DirInput::BusyAsk(ReqClass::Read),
                Event::Store => DirInput::BusyAsk(ReqClass::Write),
                Event::Evict => DirInput::BusyEvict,
            },
        }
    }

    fn request_input(&self, core: u32, event: Event) -> DirInput
        requires { core < 64 }
        ensures { result ≡ dirs.request_input event (entries.who (dirs.dir_entry_of self.now.directory) core) (entries.left_of (entries.without_core core self.now.directory.sharers)) }
    {
        let who = self.who(core);
        match event {
            Event::Load => DirInput::Ask(ReqClass::Read, who),
            Event::Store => DirInput::Ask(ReqClass::Write, who),
            Event::Evict => match who {
                Who::Other => DirInput::EvictNone,
                _ => DirInput::Evict(who, self.sharers.left_without(core)),
            },
        }
    }

    /// The row for a request.
    fn row<'a>(&self, t: &'a Tables, core: u32, event: Event) -> &'a DirRow
        requires core { core < 64 }
        requires row { IsSome (effect.row_for t.now.home self.now (record { core = core; event = event })) }
        ensures { effect.row_for t.now.home self.now (record { core = core; event = event }) ≡ Some result.now }
    {
        t.home().find(self.number, self.input(core, event)).unwrap()
    }

    /// Carries out a row for a request.
    fn drive(
        &mut self,
        t: &Tables,
        draft: &Draft,
        row: &DirRow,
        given: Given,
        event: Event,
        w: &mut Wires,
    )
        requires well_formed { IsWellFormed draft.now }
        requires cores { length w.old.slots ≡ self.old.cores }
        requires core { given.core < self.old.cores }
        requires few { given.core < 64 }
        requires fits { effect.RowFits draft.now self.old.directory given.core given.stamp given.word row.now.acts w.old }
        requires next { row.now.next < length t.now.home }
        ensures directory { self.new ≡ record self.old {
          number = row.now.next;
          directory = record (effect.with_entry (entries.entry_after draft.now (dirs.dir_entry_of self.old.directory) (record { core = given.core; event = event })) self.old.directory) {
            desc = self.new.directory.desc;
            memory = (effect.row_effects draft.now self.old.directory given.core given.stamp given.word row.now.acts w.old).memory;
            last = given.stamp;
          };
        } }
        ensures desc { option_map (λ s. s.desc) (slice_get t.now.home row.now.next) ≡ Some self.new.directory.desc }
        ensures nets { w.new ≡ (effect.row_effects draft.now self.old.directory given.core given.stamp given.word row.now.acts w.old).nets }
    {
        self.memory = self.carry_out(row.acts.as_slice(), draft, given, w);
        self.note_request(draft, given.core, event);
        self.number = row.next;
        self.desc = t.home().desc(row.next);
        self.last = given.stamp;
    }

    /// Does the acts for a request, and gives memory's word.
    fn carry_out(&self, acts: &[DirAct], draft: &Draft, given: Given, w: &mut Wires) -> u32
        requires well_formed { IsWellFormed draft.now }
        requires cores { length w.old.slots ≡ self.now.cores }
        requires core { given.core < self.now.cores }
        requires fits { effect.RowFits draft.now self.now.directory given.core given.stamp given.word acts.now w.old }
        ensures memory { result ≡ (effect.row_effects draft.now self.now.directory given.core given.stamp given.word acts.now w.old).memory }
        ensures nets { w.new ≡ (effect.row_effects draft.now self.now.directory given.core given.stamp given.word acts.now w.old).nets }
    {
        let mut memory = self.memory;
        let mut invs = 0;
        for act in acts.iter() {
            self.act(*act, draft, given, &mut memory, &mut invs, w);
        }
        memory
    }

    /// Does one act for a request.
    fn act(
        &self,
        act: DirAct,
        draft: &Draft,
        given: Given,
        memory: &mut u32,
        invs: &mut u32,
        w: &mut Wires,
    )
        requires well_formed { IsWellFormed draft.now }
        requires cores { length w.old.slots ≡ self.now.cores }
        requires core { given.core < self.now.cores }
        requires fits { effect.Fits (dirs.dir_entry_of self.now.directory) given.core act (nets.spare w.old) }
        ensures acts { record { memory = memory.new; invs = invs.new; nets = w.new } ≡ effect.after_act draft.now (dirs.dir_entry_of self.now.directory) given.core given.stamp given.word act (record { memory = memory.old; invs = invs.old; nets = w.old }) }
        ensures slots { length w.new.slots ≡ length w.old.slots }
    {
        match act {
            DirAct::Reply(reply) => w.send(Reply::Data {
                reply,
                core: given.core,
                word: *memory,
                count: *invs,
                stamp: given.stamp,
            }),
            DirAct::Forward(forward) => self.send_to_owner(
                Ordered::Forward {
                    forward,
                    who: given.core,
                    count: *invs,
                    stamp: given.stamp,
                },
                w,
            ),
            DirAct::Inv => {
                let mut others = self.sharers.copy();
                others.remove(given.core);
                *invs = send_to_each(others, invalidation(draft, given), w);
            }
            DirAct::AckCount => w.order_to(
                given.core,
                Ordered::AckCount {
                    count: *invs,
                    stamp: given.stamp,
                },
            ),
            DirAct::Write => *memory = given.word.unwrap_or(*memory),
            DirAct::PutAck => w.order_to(given.core, Ordered::PutAck { stamp: given.stamp }),
            DirAct::Stall => {}
        }
    }

    /// Sends a message to the owner, where there is one.
    fn send_to_owner(&self, message: Ordered, w: &mut Wires)
        requires cores { length w.old.slots ≡ self.now.cores }
        requires spare { IfSome self.now.directory.owner (λ o. 0 < nets.spare w.old) }
        ensures { w.new ≡ effect.send_to_owner self.now.directory.owner message w.old }
    {
        if let Some(owner) = self.owner {
            w.order_to(owner, message);
        }
    }

    /// Who is owner and who shares after a request.
    fn note_request(&mut self, draft: &Draft, core: u32, event: Event)
        requires core { core < self.old.cores }
        requires few { core < 64 }
        ensures { self.new ≡ record self.old { directory = effect.with_entry (entries.entry_after draft.now (dirs.dir_entry_of self.old.directory) (record { core = core; event = event })) self.old.directory } }
    {
        if let Some(row) = terms::dir_row(draft, self.dir(), self.case(core, event)) {
            match event {
                Event::Load => self.note_read(draft, core, row),
                Event::Store => self.note_write(core, row),
                Event::Evict => self.note_evict(core, row),
            }
        }
    }

    fn dir(&self) -> u8
        ensures { result ≡ dirs.dir_state_of self.now.directory.desc }
    {
        match self.desc {
            DirDesc::State(n) => n,
            DirDesc::Busy(n) => n,
        }
    }

    /// The case of a request.
    fn case(&self, core: u32, event: Event) -> DirCase
        requires { core < 64 }
        ensures { result ≡ entries.case_of (dirs.dir_entry_of self.now.directory) (record { core = core; event = event }) }
    {
        let who = self.who(core);
        match event {
            Event::Load => DirCase::Ask(ReqClass::Read, who),
            Event::Store => DirCase::Ask(ReqClass::Write, who),
            Event::Evict => DirCase::Evict(who, self.sharers.left_without(core)),
        }
    }

    #[tactic(auto, using(crate::proofs::Below::below_with))]
    fn note_read(&mut self, draft: &Draft, core: u32, row: &RowLine)
        requires { core < self.old.cores }
        ensures { self.new ≡ record self.old { directory = effect.with_entry (entries.entry_after_row draft.now row.now event_of.Load core (dirs.dir_entry_of self.old.directory)) self.old.directory } }
    {
        if terms::is_by_share(draft, row) {
            self.share();
        }
        if terms::kind_is(DirKind::Owned, draft, row.next) {
            self.owner = Some(core);
        } else {
            self.sharers.add(core);
        }
    }

    #[tactic(auto, using(crate::proofs::Below::below_with))]
    /// A share makes the owner a sharer.
    fn share(&mut self)
        ensures { self.new ≡ record self.old { directory = effect.with_entry (entries.entry_after_share (dirs.dir_entry_of self.old.directory)) self.old.directory } }
    {
        if let Some(owner) = self.owner.take() {
            self.sharers.add(owner);
        }
    }

    fn note_write(&mut self, core: u32, row: &RowLine)
        requires { core < self.old.cores }
        ensures { self.new ≡ record self.old { directory = effect.with_entry (entries.entry_after_write row.now core (dirs.dir_entry_of self.old.directory)) self.old.directory } }
    {
        self.owner = Some(core);
        self.sharers.clear();
    }

    #[tactic(auto, using(crate::proofs::Below::below_without))]
    fn note_evict(&mut self, core: u32, row: &RowLine)
        requires { core < self.old.cores }
        ensures { self.new ≡ record self.old { directory = effect.with_entry (entries.entry_after_evict row.now core (dirs.dir_entry_of self.old.directory)) self.old.directory } }
    {
        let is_owner = self.is_owner(core);
        self.sharers.remove(core);
        if is_owner {
            self.owner = None;
        }
    }
}

fn idle_state(draft: &Draft) -> Option<usize>
    ensures { result ≡ position numbers.is_idle draft.now.dirs }
{
    draft
        .dirs
        .as_slice()
        .iter()
        .position(|line| line.kind == DirKind::Idle)
}

/// The idle directory state.
fn idle(draft: &Draft) -> u8
    requires well_formed { IsWellFormed draft.now }
    requires shaped { IsShaped draft.now }
    ensures place { position numbers.is_idle draft.now.dirs ≡ Some result }
{
    idle_state(draft).unwrap() as u8
}

/// The invalidation for a request.
fn invalidation(draft: &Draft, given: Given) -> Ordered
    requires { IsWellFormed draft.now }
    ensures { result ≡ effect.invalidation draft.now given.core given.stamp }
{
    Ordered::Forward {
        forward: terms::forward_of(draft, FwdClass::Inv).unwrap_or(0) as u8,
        who: given.core,
        count: 0,
        stamp: given.stamp,
    }
}

/// Sends a message to each of some cores, in ascending order, and gives their number.
fn send_to_each(cores: CoreSet, message: Ordered, w: &mut Wires) -> u32
    requires room { length cores ≤ nets.spare w.old }
    requires there { numbers.AreBelow (length w.old.slots) cores }
    ensures count { result ≡ length cores }
    ensures sent { w.new ≡ effect.send_to_each message cores w.old }
    ensures slots { length w.new.slots ≡ length w.old.slots }
{
    let room = w.spare();
    let mut left = cores;
    let mut sent = 0;
    while let Some(core) = left.pop_first() {
        w.order_to(core, message);
        prove!(sent < room);
        sent += 1;
    }
    sent
}
