ghost use Rattle.std.specs.Prelude.{◌≡◌, ◌<◌, ◌≤◌, ◌+◌, ◌++◌, ◌∷◌, [], length, slice_get, is_some, IfSome, IsSome};
ghost use Rattle.pg_controllers.specs.Worlds.{done_of, move};
ghost use Rattle.pg_table.specs.Pick.{pick};
ghost use Rattle.pg_block.specs.Fitted.{IsFitted, Continues};
ghost use Rattle.pg_dir.specs.Effects as effect;
ghost use Rattle.pg_dir.specs.Numbers.{IsNumbered};
ghost use Rattle.pg_messages.specs.declared.messages.WorldEvent.TheVariants as event;
ghost use Rattle.pg_cache.specs.Rows.{IsMadeWith};
ghost use Rattle.pg_block.specs.Blocks as blocks;

use crate::program::Program;
use pg_cache::Line;
use pg_dir::Home;
use pg_messages::{DoneEntry, Finish, Finished, OrderEntry, Ordered, Reply, WorldEvent};
use pg_queue::Wires;
use pg_table::Tables;
use std::marker::Model;
use std::sync::Arc;

/// A block's world in parts.
#[derive(Drop)]
pub struct Block {
    pub tables: Arc<Tables>,
    pub lines: Vec<Line>,
    pub programs: Vec<Program>,
    pub wires: Wires,
    pub home: Home,
    pub order: Vec<OrderEntry>,
    pub done: Vec<DoneEntry>,
    pub journal: Vec<(u32, WorldEvent)>,
}

impl Model for Block {
    ghost use Rattle.std.specs.Prelude.{vec_capacity};
    ghost use Rattle.pg_block.specs.Blocks.{Block};

    ghost Value = { Block };

    ghost view = { λ b. record { tables = b.tables.value; lines = b.lines.items; programs = b.programs.items; nets = b.wires; directory = b.home; order = b.order.items; done = b.done.items; journal = b.journal.items; limits = record { order = vec_capacity b.order; done = vec_capacity b.done; journal = vec_capacity b.journal } } };
}

impl Block {
    /// Notes what a core completed, evicts aside.
    fn note_done(&mut self, core: u32, done: Option<Finish>)
        requires { length self.old.done < self.old.limits.done }
        ensures { self.new ≡ record self.old { done = self.old.done ++ done_of core done } }
    {
        if let Some(finish) = done {
            match finish.fin {
                Finished::Evict => {}
                _ => self.done.push_reserved(DoneEntry {
                    stamp: finish.stamp,
                    core,
                    fin: finish.fin,
                    late: finish.late,
                }),
            }
        }
    }

    /// A core begins its next operation.
    fn issue(&mut self, core: u32)
        requires { blocks.CanIssue core self.old }
        ensures { self.new ≡ blocks.after_issue core self.old }
    {
        let at = core as usize;
        if let Some(op) = self.programs[at].next() {
            self.programs[at].advance();
            let done = self.lines[at].begin(&self.tables, op, &mut self.wires);
            self.note_done(core, done);
        }
    }

    /// A message from the directory comes to a core.
    fn deliver(&mut self, core: u32, m: Ordered)
        requires { blocks.CanDeliver core m self.old }
        ensures { self.new ≡ blocks.meet_ordered core m self.old }
    {
        let done = self.lines[core as usize].take_ordered(&self.tables, m, &mut self.wires);
        self.note_done(core, done);
    }

    /// A core takes the message at the head of its list.
    fn take_ordered(&mut self, core: u32)
        requires { blocks.CanTake core self.old }
        ensures { self.new ≡ blocks.after_ordered core self.old }
    {
        if let Some(m) = self.wires.head(core) {
            self.wires.take_head(core);
            self.deliver(core, m);
        }
    }

    /// A reply comes to a core.
    fn answer(&mut self, core: u32, m: Reply)
        requires { blocks.CanAnswer core m self.old }
        ensures { self.new ≡ blocks.meet_reply core m self.old }
    {
        let done = self.lines[core as usize].take_reply(&self.tables, m, &mut self.wires);
        self.note_done(core, done);
    }

    /// The data that an owner writes back comes to the directory.
    fn write_back(&mut self, m: Reply)
        requires can { blocks.CanMeet m self.old }
        requires written { IsSome (effect.word_written_back m) }
        ensures world { self.new ≡ record self.old { directory = self.new.directory } }
        ensures directory { blocks.IsAfterReply m self.old self.new.directory }
    {
        self.home.take_wb(&self.tables, m);
    }

    /// What a reply that was taken does.
    fn meet(&mut self, m: Reply)
        requires { blocks.CanMeet m self.old }
        ensures world { self.new ≡ blocks.meet_by m self.new.directory self.old }
        ensures directory { blocks.IsAfterReply m self.old self.new.directory }
    {
        match m {
            Reply::Data { core, .. } => self.answer(core, m),
            Reply::InvAck { core, .. } => self.answer(core, m),
            Reply::WbData { .. } => self.write_back(m),
        }
    }

    /// The reply at a place comes.
    fn take_reply(&mut self, i: u32)
        requires { blocks.CanReply i self.old }
        ensures world { self.new ≡ blocks.answer_by i (slice_get self.old.nets.replies i) self.new.directory self.old }
        ensures directory { IfSome (slice_get self.old.nets.replies i) (λ m. blocks.IsAfterReply m self.old self.new.directory) }
    {
        let m = self.wires.take_reply(i);
        self.meet(m);
    }

    /// The directory handles a core's request.
    fn request(&mut self, core: u32)
        requires { blocks.CanRequest core self.old }
        ensures world { self.new ≡ blocks.handle_by core (blocks.request_slot self.old core) self.new.directory.number self.old }
        ensures numbered { IsNumbered self.old.tables.home self.new.directory }
    {
        if let Some(ask) = self.wires.asked(core) {
            self.wires.take_ask(core);
            let sent = self
                .home
                .take_request(&self.tables, core, ask, &mut self.wires);
            self.order.push_reserved(OrderEntry {
                core,
                event: ask.event,
                stale: sent.stale,
            });
        }
    }

    fn carry_out(&mut self, e: WorldEvent)
        requires { blocks.CanHappen e self.old }
        ensures { blocks.HasHappened e self.old self.new }
    {
        match e {
            WorldEvent::Issue(core) => self.issue(core),
            WorldEvent::Request(core) => self.request(core),
            WorldEvent::Ordered(core) => self.take_ordered(core),
            WorldEvent::Reply(i) => self.take_reply(i),
        }
    }

    /// An event happens.
    pub fn happen(&mut self, e: WorldEvent)
        requires fitted { IsFitted self.old }
        requires can { blocks.CanHappen e self.old }
        ensures world { blocks.world_of self.new ≡ move self.old.tables.protocol (pick self.old.tables.cache) (blocks.world_of self.old) e }
        ensures rest { Continues self.old self.new }
    {
        self.carry_out(e);
    }

    /// The line of a core.
    pub fn line(&self, core: u32) -> &Line
        requires { core < length self.now.lines }
        ensures { result.now ≡ blocks.line_at self.now core }
    {
        &self.lines[core as usize]
    }

    /// Whether a core is there, at rest, and has an operation left.
    fn can_issue(&self, core: u32) -> bool
        requires { length self.now.programs ≡ length self.now.lines }
        ensures { result ≡ blocks.enabled_at (event.Issue core) self.now }
    {
        let at = core as usize;
        at < self.lines.len() && self.lines[at].pending().is_none() && self.programs[at].has_next()
    }

    /// Whether a core has a request in its slot.
    pub fn has_request(&self, core: u32) -> bool
        requires { core < length self.now.nets.slots }
        ensures { result ≡ is_some (blocks.request_slot self.now core) }
    {
        self.wires.asked(core).is_some()
    }

    /// Whether a core is there and has a request in its slot, and the directory isn't busy.
    fn can_request(&self, core: u32) -> bool
        requires { length self.now.nets.slots ≡ length self.now.lines }
        ensures { result ≡ blocks.enabled_at (event.Request core) self.now }
    {
        (core as usize) < self.lines.len() && self.has_request(core) && !self.home.busy()
    }

    /// Whether a message is there at the head of a core's list, and doesn't wait.
    fn has_head(&self, core: u32) -> bool
        requires core { core < length self.now.lines }
        requires slots { length self.now.nets.slots ≡ length self.now.lines }
        requires made { IsMadeWith self.now.tables (blocks.line_at self.now core) }
        ensures { result ≡ blocks.heads self.now.tables (blocks.line_at self.now core) (blocks.head_of self.now core) }
    {
        match self.wires.head(core) {
            None => false,
            Some(m) => !self.lines[core as usize].stalls(&self.tables, &m),
        }
    }

    fn can_take(&self, core: u32) -> bool
        requires { blocks.CanTell self.now }
        ensures { result ≡ blocks.enabled_at (event.Ordered core) self.now }
    {
        (core as usize) < self.lines.len() && self.has_head(core)
    }

    /// Whether an event is enabled.
    pub fn is_enabled(&self, e: WorldEvent) -> bool
        requires { blocks.CanTell self.now }
        ensures { result ≡ blocks.enabled_at e self.now }
    {
        match e {
            WorldEvent::Issue(core) => self.can_issue(core),
            WorldEvent::Request(core) => self.can_request(core),
            WorldEvent::Ordered(core) => self.can_take(core),
            WorldEvent::Reply(i) => i < self.wires.replies(),
        }
    }

    /// Notes in the journal that an event happened, and by which seat.
    pub fn note(&mut self, by: u32, e: WorldEvent)
        requires { length self.old.journal < self.old.limits.journal }
        ensures { self.new ≡ record self.old { journal = self.old.journal ++ (by, e) ∷ [] } }
    {
        self.journal.push_reserved((by, e));
    }

    /// How many cores it has.
    pub fn cores(&self) -> usize
        ensures { result ≡ length self.now.lines }
    {
        self.lines.len()
    }

    /// How many replies are on their way.
    pub fn replies(&self) -> u32
        ensures { result ≡ length self.now.nets.replies }
    {
        self.wires.replies()
    }

    /// How many entries more the journal has room for.
    pub fn room(&self) -> usize
        ensures { result + length self.now.journal ≡ self.now.limits.journal }
    {
        self.journal.capacity() - self.journal.len()
    }
}
