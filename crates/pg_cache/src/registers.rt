ghost use Rattle.std.specs.Prelude.{◌≡◌, ◌<◌, ◌≤◌, ◌-◌, length, map, IsSome, IfOk, ◌∷◌, None, Some};
ghost use Rattle.pg_controllers.specs.Lines as lines;
ghost use Rattle.pg_cache.specs.Acts as does;
ghost use Rattle.pg_cache.specs.Rows as rows;
ghost use Rattle.pg_table.specs.Sound.{IsSoundCache};
ghost use Rattle.pg_cache.specs.Acts.{progress, after_act};
ghost use Rattle.pg_controllers.specs.Networks as net;
ghost use Rattle.pg_table.specs.Descriptors.{final_states, final_states_in};
ghost use Rattle.pg_table.specs.Choices.{store_final};
ghost use Rattle.pg_table.specs.Pick.{pick};
ghost use Rattle.pg_queue.specs.Nets.{Nets};
ghost use Rattle.pg_table.specs.Tables.{number_of};
ghost use Rattle.pg_table.specs.Stalls.{is_stall};
ghost use Rattle.std.specs.List.{list_any};
ghost use Rattle.pg_table.specs.Controllers.{state_at};
ghost use Rattle.pg_table.specs.Sound.{states_of};
ghost use Rattle.pg_perm.specs.declared.kinds.Event.TheVariants as event;
ghost use Rattle.pg_table.specs.declared.cache.Input.TheVariants as at;
ghost use Rattle.pg_shape.specs.CoreRules.{asks_class};
ghost use Rattle.pg_perm.specs.declared.kinds.ReqClass.TheVariants.{Dirty};
ghost use Rattle.pg_table.specs.declared.cache.Act.TheVariants as act;

use crate::received::Received;
use pg_messages::{Ask, Finish, Finished, Ordered, Reply};
use pg_perm::{CoreForm, Draft, Event, FwdClass, Op, Pair, Perm, ReplyName, ReqClass};
use pg_queue::Wires;
use pg_table::{Act, Desc, Input, Phase, Row, Tables, Tag};
use pg_terms::{core_row, final_state, has_class, is_request_of, perm_of, reply_to, take_row};
use pg_wait::{Acks, Deferred};
use std::alloc::{AllocError, Global};
use std::marker::Model;

/// The registers of a line. While a row is carried out its acts change them one by one.
#[derive(Drop)]
pub struct Registers {
    desc: Desc,
    state: u16,
    core: u32,
    word: u32,
    stamp: u32,
    acks: Acks,
    deferred: Deferred,
    pending: Option<Op>,
}

impl Model for Registers {
    ghost use Rattle.pg_cache.specs.Acts.{LineView};

    ghost Value = { LineView };

    ghost view = { λ l. record {
      line = record { desc = l.desc; word = l.word; stamp = l.stamp; need = l.acks.need; got = l.acks.got; deferred = l.deferred.items; pending = l.pending };
      state = l.state;
      core = l.core;
      room = l.deferred.room;
    } };
}

fn finished(op: Op, word: u32) -> Finished
    ensures { result ≡ lines.outcome_of op word }
{
    match op {
        Op::Load => Finished::Load(word),
        Op::Store(stored) => Finished::Store(stored),
        Op::Evict => Finished::Evict,
    }
}

fn word_after(op: Op, word: u32) -> u32
    ensures { result ≡ lines.word_after op word }
{
    match op {
        Op::Load => word,
        Op::Store(stored) => stored,
        Op::Evict => word,
    }
}

pub fn event_of(op: Op) -> Event
    ensures { result ≡ net.event_of op }
{
    match op {
        Op::Load => Event::Load,
        Op::Store(_) => Event::Store,
        Op::Evict => Event::Evict,
    }
}

fn asks_dirty(draft: &Draft, request: u8) -> bool
    ensures { result ≡ asks_class Dirty draft.now request }
{
    draft
        .messages
        .get(usize::from(request))
        .is_some_and(|message| is_request_of(ReqClass::Dirty, message.class))
}

fn next_of(draft: &Draft, state: u8, forward: u8) -> u8
    ensures { result ≡ lines.next_of draft.now state forward }
{
    match take_row(draft, state, forward) {
        Some(row) => row.next,
        None => state,
    }
}

fn is_gone(desc: Desc) -> bool
    ensures { result ≡ lines.is_gone desc }
{
    match desc {
        Desc::Ask { tag: Tag::Gone, .. } => true,
        _ => false,
    }
}

#[tactic(auto, using(crate::proofs::First::first_is))]
fn first_final(pairs: &[Pair]) -> Option<u8>
    ensures { result ≡ store_final (map (λ p. p.fin) pairs.now) }
{
    pairs.first().map(|pair| pair.fin)
}

fn final_in(form: &CoreForm) -> Option<u8>
    ensures { result ≡ store_final (final_states_in form.now) }
{
    match form {
        CoreForm::Ask { pairs, .. } => first_final(pairs.as_slice()),
        _ => None,
    }
}

/// The state in which a store ends that began in this one.
fn store_final_of(draft: &Draft, start: u8, event: Event) -> Option<u8>
    ensures { result ≡ store_final (final_states draft.now start event) }
{
    match core_row(draft, start, event) {
        Some(row) => final_in(&row.form),
        None => None,
    }
}

/// The state in which the operation ends, before what was put off is answered.
fn final_at(draft: &Draft, desc: Desc, input: Input) -> u8
    ensures { result ≡ lines.final_at draft.now desc input }
{
    match (desc, input) {
        (Desc::Ask { event, start, .. }, Input::DataAll(reply)) => {
            final_state(draft, start, event, ReplyName::Reply(reply)).unwrap_or(0)
        }
        (Desc::Ask { event, start, .. }, Input::AckLast) => {
            store_final_of(draft, start, event).unwrap_or(0)
        }
        _ => 0,
    }
}

impl Registers {
    pub fn ordered_input(&self, m: Ordered) -> Input
        ensures { result ≡ lines.ordered_input self.now.line m }
    {
        match m {
            Ordered::Forward { forward, .. } => Input::Forward(forward),
            Ordered::AckCount { count, .. } => {
                if self.acks.would_finish(count) {
                    Input::CountAll
                } else {
                    Input::CountPart
                }
            }
            Ordered::PutAck { .. } => Input::PutAck,
        }
    }

    pub fn reply_input(&self, m: Reply) -> Input
        ensures { result ≡ lines.reply_input self.now.line m }
    {
        match m {
            Reply::Data { reply, count, .. } => {
                if self.acks.would_finish(count) {
                    Input::DataAll(reply)
                } else {
                    Input::DataPart(reply)
                }
            }
            Reply::InvAck { .. } => {
                if self.acks.next_is_last() {
                    Input::AckLast
                } else {
                    Input::AckMore
                }
            }
            Reply::WbData { .. } => Input::AckMore,
        }
    }

    pub fn received_op(&self, op: Op) -> Received
        ensures { result ≡ lines.received_op self.now.line op }
    {
        Received {
            op,
            who: 0,
            word: 0,
            count: 0,
            stamp: self.stamp,
            message: Ordered::PutAck { stamp: 0 },
            first: 0,
            late: false,
        }
    }

    pub fn received_ordered(&self, m: Ordered) -> Received
        ensures { result ≡ lines.received_ordered self.now.line m }
    {
        match m {
            Ordered::Forward {
                who,
                count,
                stamp,
                ..
            } => Received {
                op: Op::Evict,
                who,
                word: 0,
                count,
                stamp,
                message: m,
                first: 0,
                late: false,
            },
            Ordered::AckCount { count, stamp } => Received {
                op: Op::Evict,
                who: 0,
                word: 0,
                count,
                stamp,
                message: m,
                first: 0,
                late: is_gone(self.desc),
            },
            Ordered::PutAck { .. } => Received {
                op: Op::Evict,
                who: 0,
                word: 0,
                count: 0,
                stamp: self.stamp,
                message: m,
                first: 0,
                late: false,
            },
        }
    }

    pub fn received_reply(&self, draft: &Draft, m: Reply) -> Received
        ensures { result ≡ lines.received_reply draft.now self.now.line m }
    {
        let first = final_at(draft, self.desc, self.reply_input(m));
        let late = is_gone(self.desc);
        let message = Ordered::PutAck { stamp: 0 };
        match m {
            Reply::Data {
                word,
                count,
                stamp,
                ..
            } => Received {
                op: Op::Evict,
                who: 0,
                word,
                count,
                stamp,
                message,
                first,
                late,
            },
            Reply::InvAck { .. } => Received {
                op: Op::Evict,
                who: 0,
                word: 0,
                count: 0,
                stamp: self.stamp,
                message,
                first,
                late,
            },
            Reply::WbData { word, stamp } => Received {
                op: Op::Evict,
                who: 0,
                word,
                count: 0,
                stamp,
                message,
                first: 0,
                late: false,
            },
        }
    }

    /// The row of the line's state at an input is carried out.
    pub fn drive(
        &mut self,
        t: &Tables,
        input: Input,
        met: &Received,
        w: &mut Wires,
    ) -> Option<Finish>
        requires { rows.IsReady t.now input met.now self.old w.old }
        ensures row { record { line = self.new; nets = w.new; done = result } ≡ rows.after_row t.now input met.now self.old w.old }
        ensures sound { IsSoundCache t.now.protocol t.now.cache }
    {
        let table = t.cache();
        let Some(row) = table.find(self.state, input) else {
            return None;
        };
        let desc = table.desc(row.next);
        self.follow(row, desc, t.protocol().draft(), met, w)
    }

    fn send_ack(
        &mut self,
        who: u32,
        count: u32,
        stamp: u32,
        wires: &mut Wires,
        done: &Option<Finish>,
    )
        requires { does.IsWithinLimit (does.after_reply who count stamp act.Ack (progress self.old wires.old done.now)) }
        ensures { progress self.new wires.new done.now ≡ does.after_reply who count stamp act.Ack (progress self.old wires.old done.now) }
    {
        wires.send(Reply::InvAck { core: who, stamp });
        self.stamp = stamp;
    }

    fn give(
        &mut self,
        reply: u8,
        who: u32,
        count: u32,
        stamp: u32,
        wires: &mut Wires,
        done: &Option<Finish>,
    )
        requires { does.IsWithinLimit (does.after_reply who count stamp (act.Give reply) (progress self.old wires.old done.now)) }
        ensures { progress self.new wires.new done.now ≡ does.after_reply who count stamp (act.Give reply) (progress self.old wires.old done.now) }
    {
        wires.send(Reply::Data {
            reply,
            core: who,
            word: self.word,
            count,
            stamp,
        });
        self.stamp = stamp;
    }

    fn write_back(
        &mut self,
        who: u32,
        count: u32,
        stamp: u32,
        wires: &mut Wires,
        done: &Option<Finish>,
    )
        requires { does.IsWithinLimit (does.after_reply who count stamp act.Wb (progress self.old wires.old done.now)) }
        ensures { progress self.new wires.new done.now ≡ does.after_reply who count stamp act.Wb (progress self.old wires.old done.now) }
    {
        wires.send(Reply::WbData {
            word: self.word,
            stamp,
        });
        self.stamp = stamp;
    }

    fn perform(&mut self, op: Op, met: &Received, wires: &Wires, done: &mut Option<Finish>)
        ensures { progress self.new wires.now done.new ≡ record (progress self.old wires.now done.old) { result = lines.complete_at_once op met.now (progress self.old wires.now done.old).result } }
    {
        *done = Some(Finish {
            stamp: met.stamp,
            fin: finished(op, self.word),
            late: met.late,
        });
        self.word = word_after(op, self.word);
    }

    fn complete(&mut self, op: Op, met: &Received, wires: &Wires, done: &mut Option<Finish>)
        ensures { progress self.new wires.now done.new ≡ record (progress self.old wires.now done.old) { result = lines.complete op met.now (progress self.old wires.now done.old).result } }
    {
        *done = Some(Finish {
            stamp: met.stamp,
            fin: finished(op, self.word),
            late: met.late,
        });
        self.word = word_after(op, self.word);
        self.stamp = met.stamp;
        self.acks = Acks::fresh();
        self.pending = None;
    }

    fn ask_for(&self, draft: &Draft, request: u8, op: Op) -> Ask
        ensures { result ≡ lines.ask_for draft.now request op self.now.line }
    {
        let word = if asks_dirty(draft, request) {
            Some(self.word)
        } else {
            None
        };
        Ask {
            request,
            event: event_of(op),
            word,
        }
    }

    fn request(
        &mut self,
        request: u8,
        draft: &Draft,
        met: &Received,
        wires: &mut Wires,
        done: &Option<Finish>,
    )
        requires { self.old.core < length wires.old.slots }
        ensures { progress self.new wires.new done.now ≡ after_act draft.now met.now (act.Send request) (progress self.old wires.old done.now) }
    {
        let ask = self.ask_for(draft, request, met.op);
        wires.ask(self.core, ask);
        self.pending = Some(met.op);
    }

    /// A forward is answered as in this state.
    fn answer(
        &mut self,
        draft: &Draft,
        state: u8,
        forward: u8,
        who: u32,
        count: u32,
        stamp: u32,
        wires: &mut Wires,
        done: &Option<Finish>,
    )
        requires { does.IsWithinLimit (does.after_answer draft.now state forward who count stamp (progress self.old wires.old done.now)) }
        ensures { progress self.new wires.new done.now ≡ does.after_answer draft.now state forward who count stamp (progress self.old wires.old done.now) }
    {
        if has_class(FwdClass::Inv, draft, forward) {
            self.send_ack(who, count, stamp, wires, done);
        } else {
            if let Some(reply) = reply_to(draft, state, forward) {
                self.give(reply, who, count, stamp, wires, done);
            }
            if has_class(FwdClass::Share, draft, forward) {
                self.write_back(who, count, stamp, wires, done);
            }
        }
    }

    /// One that was put off is answered as in a state, and tells the next.
    fn serve_one(
        &mut self,
        draft: &Draft,
        state: u8,
        message: Ordered,
        wires: &mut Wires,
        done: &Option<Finish>,
    ) -> u8
        requires { does.IsWithinLimit (does.after_one_deferred draft.now state message (progress self.old wires.old done.now)) }
        ensures acts { progress self.new wires.new done.now ≡ does.after_one_deferred draft.now state message (progress self.old wires.old done.now) }
        ensures next { result ≡ does.state_after_forward draft.now state message }
    {
        match message {
            Ordered::Forward {
                forward,
                who,
                count,
                stamp,
            } => {
                self.answer(draft, state, forward, who, count, stamp, wires, done);
                next_of(draft, state, forward)
            }
            _ => state,
        }
    }

    #[tactic(auto, using(crate::proofs::Serves::serves_next, crate::proofs::Serves::serves_last, crate::proofs::Serves::has_room_next))]
    fn serve(&mut self, draft: &Draft, first: u8, wires: &mut Wires, done: &Option<Finish>)
        requires { does.IsWithinLimit (does.after_deferred draft.now first self.old.line.deferred (progress self.old wires.old done.now)) }
        ensures { progress self.new wires.new done.now ≡ does.after_deferred draft.now first self.old.line.deferred (progress self.old wires.old done.now) }
    {
        let mut state = first;
        while let Some(message) = self.deferred.pop() {
            state = self.serve_one(draft, state, message, wires, done);
        }
    }

    fn act(
        &mut self,
        what: Act,
        draft: &Draft,
        met: &Received,
        wires: &mut Wires,
        done: &mut Option<Finish>,
    )
        requires { does.Fits draft.now met.now what (progress self.old wires.old done.old) }
        ensures { progress self.new wires.new done.new ≡ after_act draft.now met.now what (progress self.old wires.old done.old) }
    {
        match what {
            Act::Hit => self.perform(met.op, met, wires, done),
            Act::Skip => self.perform(met.op, met, wires, done),
            Act::Send(request) => self.request(request, draft, met, wires, done),
            Act::Ack => self.send_ack(met.who, met.count, met.stamp, wires, done),
            Act::Give(reply) => self.give(reply, met.who, met.count, met.stamp, wires, done),
            Act::Wb => self.write_back(met.who, met.count, met.stamp, wires, done),
            Act::Fill => {
                self.word = met.word;
                self.stamp = met.stamp;
            }
            Act::Need => {
                self.acks.need_is(met.count);
                self.stamp = met.stamp;
            }
            Act::Count => self.acks.got_one(),
            Act::Done => {
                if let Some(op) = self.pending {
                    self.complete(op, met, wires, done);
                }
            }
            Act::Defer => self.deferred.push(met.message),
            Act::Serve => self.serve(draft, met.first, wires, done),
            Act::Stall => {}
        }
    }

    fn carry_out(
        &mut self,
        acts: &[Act],
        draft: &Draft,
        met: &Received,
        wires: &mut Wires,
        done: &mut Option<Finish>,
    )
        requires { does.AllFit draft.now met.now acts.now (progress self.old wires.old done.old) }
        ensures { progress self.new wires.new done.new ≡ does.after_acts draft.now met.now acts.now (progress self.old wires.old done.old) }
    {
        for what in acts.iter() {
            self.act(*what, draft, met, wires, done);
        }
    }

    /// Carries out a row that leads to a state, and tells what was completed.
    fn follow(
        &mut self,
        row: &Row,
        desc: Desc,
        draft: &Draft,
        met: &Received,
        wires: &mut Wires,
    ) -> Option<Finish>
        requires { does.AllFit draft.now met.now row.now.acts (progress self.old wires.old None) }
        ensures { record { line = self.new; nets = wires.new; done = result } ≡ rows.after_choice draft.now (record { acts = row.now.acts; next = desc }) row.now.next met.now self.old wires.old }
    {
        let mut done = None;
        self.carry_out(row.acts.as_slice(), draft, met, wires, &mut done);
        self.desc = desc;
        self.state = row.next;
        done
    }

    /// The pending operation is done.
    fn finish_pending(&mut self, met: &Received) -> Option<Finish>
        ensures line { self.new ≡ record self.old { line = (does.done_alone met.now self.old).line } }
        ensures done { result ≡ (does.done_alone met.now self.old).done }
    {
        let op = self.pending?;
        let fin = finished(op, self.word);
        self.word = word_after(op, self.word);
        self.stamp = met.stamp;
        self.acks = Acks::fresh();
        self.pending = None;
        Some(Finish {
            stamp: met.stamp,
            fin,
            late: met.late,
        })
    }

    /// Carries out the row for the answer to an evict, which sends nothing.
    pub fn end_evict(&mut self, t: &Tables, met: &Received) -> Option<Finish>
        requires made { rows.IsMadeWith t.now self.old }
        requires picked { IsSome (pick t.now.cache self.old.line.desc at.PutAck) }
        ensures row { (w : Nets) → record { line = self.new; nets = w; done = result } ≡ rows.after_row t.now at.PutAck met.now self.old w }
        ensures done { result ≡ (does.done_alone met.now self.old).done }
        ensures sound { IsSoundCache t.now.protocol t.now.cache }
    {
        let table = t.cache();
        let Some(row) = table.find(self.state, Input::PutAck) else {
            return None;
        };
        let desc = table.desc(row.next);
        let done = self.finish_pending(met);
        self.desc = desc;
        self.state = row.next;
        done
    }

    /// Those of a line in this state, with its number, in which nothing was done yet.
    pub fn make(
        alloc: Global,
        desc: Desc,
        state: u16,
        core: u32,
        cores: u32,
    ) -> Result<Registers, AllocError>
        requires { core < cores }
        ensures { IfOk result (λ r. r ≡ record { line = record (net.idle_line 0) { desc = desc }; state = state; core = core; room = cores - 1 }) }
    {
        Ok(Registers {
            desc,
            state,
            core,
            word: 0,
            stamp: 0,
            acks: Acks::fresh(),
            deferred: Deferred::make(alloc, cores - 1)?,
            pending: None,
        })
    }

    pub fn desc(&self) -> Desc
        ensures { result ≡ self.now.line.desc }
    {
        self.desc
    }

    pub fn state(&self) -> u16
        ensures { result ≡ self.now.state }
    {
        self.state
    }

    pub fn word(&self) -> u32
        ensures { result ≡ self.now.line.word }
    {
        self.word
    }

    pub fn stamp(&self) -> u32
        ensures { result ≡ self.now.line.stamp }
    {
        self.stamp
    }

    pub fn pending(&self) -> Option<Op>
        ensures { result ≡ self.now.line.pending }
    {
        self.pending
    }
}
