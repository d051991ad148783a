ghost use Rattle.std.specs.Prelude.{◌≡◌, ◌<◌, ◌≤◌, ◌-◌, length, get_or, set, is_some, is_none, true, false, IfOk, IsSome, None, Some};
ghost use Rattle.std.specs.List.{list_any};
ghost use Rattle.std.specs.Option.{option_map};
ghost use Rattle.pg_messages.specs.declared.messages.Finish.{Finish};
ghost use Rattle.pg_table.specs.declared.cache.Desc.TheVariants.{Stable};
ghost use Rattle.pg_table.specs.declared.cache.Input.TheVariants as at;
ghost use Rattle.pg_perm.specs.declared.kinds.Event.{Event};
ghost use Rattle.pg_table.specs.Descriptors.{out_state};
ghost use Rattle.pg_controllers.specs.Worlds.{is_stable};
ghost use Rattle.pg_table.specs.Controllers.{state_at};
ghost use Rattle.pg_table.specs.Stalls.{is_stall};
ghost use Rattle.pg_controllers.specs.Networks as net;
ghost use Rattle.pg_controllers.specs.Lines.{ordered_input, reply_input, received_op, received_ordered, received_reply};
ghost use Rattle.pg_controllers.specs.Usable as perms;
ghost use Rattle.pg_table.specs.Pick.{pick};
ghost use Rattle.pg_queue.specs.Nets.{Nets};
ghost use Rattle.pg_cache.specs.Rows.{IsReady, IsMadeWith, HasOutstanding, after_row, finish_of, without_done};
ghost use Rattle.pg_cache.specs.Inputs.{IsForward, IsAckCount, IsPutAck, IsData, IsInvAck, IsMetAt, completes, is_core, has_stall_row};

use crate::received::Received;
use crate::registers::{Registers, event_of};
use pg_messages::{Finish, Finished, Ordered, Reply};
use pg_perm::{Draft, Event, Op, Perm};
use pg_queue::Wires;
use pg_table::{Act, Desc, Input, Phase, Row, Tables, Tag};
use pg_terms::perm_of;
use std::alloc::{AllocError, Global};
use std::marker::Model;

/// The line of a block in a core's cache: its state, its word and stamp, the acknowledgements that it waits for, the forwards that it deferred
/// and the operation that is outstanding.
///
/// Each call that changes it carries out the row that the table has for an operation or a message (docs/TABLES.md), on the line, on the core's
/// slot and on the replies, and answers what the row completed. It takes no memory.
#[derive(Drop)]
pub struct Line {
    registers: Registers,
}

impl Model for Line {
    ghost use Rattle.pg_cache.specs.Acts.{LineView};
    ghost use Rattle.pg_table.specs.Pick.{pick};
    ghost use Rattle.pg_queue.specs.Nets.{Nets};
    ghost use Rattle.pg_cache.specs.Rows.{HasOutstanding};

    ghost Value = { LineView };

    ghost view = { λ l. l.registers };

    ghost invariant = { λ l. HasOutstanding l.registers.line };
}

fn is_other(desc: Desc, out: u8) -> bool
    ensures other { result ≡ true → desc ≡ Stable out → ⊥ }
    ensures same { result ≡ false → desc ≡ Stable out }
{
    match desc {
        Desc::Stable(state) => state != out,
        _ => true,
    }
}

/// The number of the out state.
fn out_number(t: &Tables) -> u16
    ensures { state_at t.now.cache result ≡ Some (Stable (out_state t.now.protocol)) }
{
    let table = t.cache();
    let draft = t.protocol().draft();
    let out = t.protocol().out();
    let states = table.states();
    let mut number = 0;
    while is_other(table.desc(number), out) {
        number += 1;
    }
    number
}

fn perm_at(draft: &Draft, state: u8) -> Perm
    ensures { result ≡ perms.perm_at draft.now state }
{
    perm_of(draft, state).unwrap_or(Perm::None)
}

fn outcome_of(done: Option<Finish>) -> Option<Finished>
    ensures { result ≡ option_map (λ (f : Finish). f.fin) done }
{
    match done {
        Some(finish) => Some(finish.fin),
        None => None,
    }
}

fn is_stall_row(row: &Row) -> bool
    ensures { result ≡ list_any is_stall row.now.acts }
{
    row.acts.as_slice().iter().any(|act| *act == Act::Stall)
}

impl Line {
    /// The line of core number `core` of 1 to 64 `cores`, in the out state. It has room to defer a forward for each other core.
    pub fn make(alloc: Global, t: &Tables, core: u32, cores: u32) -> Result<Line, AllocError>
        requires few { cores ≤ 64 }
        requires core { core < cores }
        ensures idle { IfOk result (λ l. l.line ≡ net.idle_line (out_state t.now.protocol)) }
        ensures made { IfOk result (λ l. IsMadeWith t.now l) }
        ensures core { IfOk result (λ l. l.core ≡ core) }
        ensures room { IfOk result (λ l. l.room ≡ cores - 1) }
    {
        let state = out_number(t);
        let desc = Desc::Stable(t.protocol().out());
        Ok(Line {
            registers: Registers::make(alloc, desc, state, core, cores)?,
        })
    }

    /// Carries out the row for an input.
    fn carry_out(
        &mut self,
        t: &Tables,
        input: Input,
        met: &Received,
        w: &mut Wires,
    ) -> Option<Finish>
        requires ready { IsReady t.now input met.now self.old w.old }
        requires met { IsMetAt input met.now }
        ensures row { record { line = self.new; nets = w.new; done = result } ≡ after_row t.now input met.now self.old w.old }
        ensures complete { is_core input ≡ false → is_some result ≡ completes input }
        ensures sent { (e : Event) → input ≡ at.Core e → get_or w.old.slots self.old.core None ≡ None → is_none result ≡ is_some (get_or w.new.slots self.old.core None) }
    {
        self.registers.drive(t, input, met, w)
    }

    /// Carries out the row for an input, and answers what it completed without its stamp.
    fn drive(&mut self, t: &Tables, input: Input, met: &Received, w: &mut Wires) -> Option<Finished>
        requires ready { IsReady t.now input met.now self.old w.old }
        requires met { IsMetAt input met.now }
        ensures row { record { line = self.new; nets = w.new; done = finish_of met.now result } ≡ after_row t.now input met.now self.old w.old }
        ensures complete { is_core input ≡ false → is_some result ≡ completes input }
        ensures sent { (e : Event) → input ≡ at.Core e → get_or w.old.slots self.old.core None ≡ None → is_none result ≡ is_some (get_or w.new.slots self.old.core None) }
    {
        let done = self.carry_out(t, input, met, w);
        outcome_of(done)
    }

    /// Begins an operation of the core, as `issue` does, and answers what it completed with its stamp.
    pub fn begin(&mut self, t: &Tables, op: Op, w: &mut Wires) -> Option<Finish>
        requires { IsReady t.now (at.Core (net.event_of op)) (received_op self.old.line op) self.old w.old }
        ensures { record { line = self.new; nets = w.new; done = result } ≡ after_row t.now (at.Core (net.event_of op)) (received_op self.old.line op) self.old w.old }
    {
        let met = self.registers.received_op(op);
        self.carry_out(t, Input::Core(event_of(op)), &met, w)
    }

    /// Takes a message from the directory, of whatever kind, and answers what it completed, with its stamp and whether it came late.
    pub fn take_ordered(&mut self, t: &Tables, m: Ordered, w: &mut Wires) -> Option<Finish>
        requires { IsReady t.now (ordered_input self.old.line m) (received_ordered self.old.line m) self.old w.old }
        ensures { record { line = self.new; nets = w.new; done = result } ≡ after_row t.now (ordered_input self.old.line m) (received_ordered self.old.line m) self.old w.old }
    {
        let input = self.registers.ordered_input(m);
        let met = self.registers.received_ordered(m);
        self.carry_out(t, input, &met, w)
    }

    /// Takes data or an acknowledgement, and answers what it completed, with its stamp and whether it came late.
    pub fn take_reply(&mut self, t: &Tables, m: Reply, w: &mut Wires) -> Option<Finish>
        requires { IsReady t.now (reply_input self.old.line m) (received_reply t.now.protocol self.old.line m) self.old w.old }
        ensures { record { line = self.new; nets = w.new; done = result } ≡ after_row t.now (reply_input self.old.line m) (received_reply t.now.protocol self.old.line m) self.old w.old }
    {
        let input = self.registers.reply_input(m);
        let met = self.registers.received_reply(t.protocol().draft(), m);
        self.carry_out(t, input, &met, w)
    }

    /// Begins an operation of the core, where none is outstanding and the core's slot is empty. A hit, and an evict in the out state, are done at
    /// once; of any other operation the request is sent, and none is answered. What is done has the stamp that the line had before.
    pub fn issue(&mut self, t: &Tables, op: Op, w: &mut Wires) -> Option<Finished>
        requires ready { IsReady t.now (at.Core (net.event_of op)) (received_op self.old.line op) self.old w.old }
        requires empty { get_or w.old.slots self.old.core None ≡ None }
        ensures row { record { line = self.new; nets = w.new; done = finish_of (received_op self.old.line op) result } ≡ after_row t.now (at.Core (net.event_of op)) (received_op self.old.line op) self.old w.old }
        ensures sent { is_none result ≡ is_some (get_or w.new.slots self.old.core None) }
    {
        let met = self.registers.received_op(op);
        self.drive(t, Input::Core(event_of(op)), &met, w)
    }

    fn outcome_of_ordered(&mut self, t: &Tables, m: Ordered, w: &mut Wires) -> Option<Finished>
        requires { IsReady t.now (ordered_input self.old.line m) (received_ordered self.old.line m) self.old w.old }
        ensures row { record { line = self.new; nets = w.new; done = finish_of (received_ordered self.old.line m) result } ≡ after_row t.now (ordered_input self.old.line m) (received_ordered self.old.line m) self.old w.old }
        ensures complete { is_some result ≡ completes (ordered_input self.old.line m) }
    {
        let input = self.registers.ordered_input(m);
        let met = self.registers.received_ordered(m);
        self.drive(t, input, &met, w)
    }

    fn outcome_of_reply(&mut self, t: &Tables, m: Reply, w: &mut Wires) -> Option<Finished>
        requires { IsReady t.now (reply_input self.old.line m) (received_reply t.now.protocol self.old.line m) self.old w.old }
        ensures row { record { line = self.new; nets = w.new; done = finish_of (received_reply t.now.protocol self.old.line m) result } ≡ after_row t.now (reply_input self.old.line m) (received_reply t.now.protocol self.old.line m) self.old w.old }
        ensures complete { is_some result ≡ completes (reply_input self.old.line m) }
    {
        let input = self.registers.reply_input(m);
        let met = self.registers.received_reply(t.protocol().draft(), m);
        self.drive(t, input, &met, w)
    }

    /// Takes a forward: it is answered, deferred, or left to wait.
    pub fn take_forward(&mut self, t: &Tables, m: Ordered, w: &mut Wires)
        requires kind { IsForward m }
        requires ready { IsReady t.now (ordered_input self.old.line m) (received_ordered self.old.line m) self.old w.old }
        ensures { record { line = self.new; nets = w.new } ≡ without_done (after_row t.now (ordered_input self.old.line m) (received_ordered self.old.line m) self.old w.old) }
    {
        let _done = self.outcome_of_ordered(t, m, w);
    }

    /// Takes the number of acknowledgements that the outstanding store needs, and answers the store where all were got: then it is done, with the
    /// stamp of the message. None is answered where some are missing.
    pub fn take_count(&mut self, t: &Tables, m: Ordered, w: &mut Wires) -> Option<Finished>
        requires kind { IsAckCount m }
        requires ready { IsReady t.now (ordered_input self.old.line m) (received_ordered self.old.line m) self.old w.old }
        ensures row { record { line = self.new; nets = w.new; done = finish_of (received_ordered self.old.line m) result } ≡ after_row t.now (ordered_input self.old.line m) (received_ordered self.old.line m) self.old w.old }
        ensures complete { is_some result ≡ completes (ordered_input self.old.line m) }
    {
        self.outcome_of_ordered(t, m, w)
    }

    /// Takes the answer to an evict: the evict is done.
    pub fn take_putack(&mut self, t: &Tables, m: Ordered) -> Finished
        requires kind { IsPutAck m }
        requires made { IsMadeWith t.now self.old }
        requires picked { IsSome (pick t.now.cache self.old.line.desc at.PutAck) }
        ensures row { (w : Nets) → record { line = self.new; nets = w; done = finish_of (received_ordered self.old.line m) (Some result) } ≡ after_row t.now (ordered_input self.old.line m) (received_ordered self.old.line m) self.old w }
    {
        let met = self.registers.received_ordered(m);
        let done = self.registers.end_evict(t, &met);
        outcome_of(done).unwrap()
    }

    /// Takes data, and answers the outstanding operation where it is done: where as many acknowledgements were got as the data says. It has the
    /// stamp of the message. None is answered where some are missing.
    pub fn take_data(&mut self, t: &Tables, m: Reply, w: &mut Wires) -> Option<Finished>
        requires kind { IsData m }
        requires ready { IsReady t.now (reply_input self.old.line m) (received_reply t.now.protocol self.old.line m) self.old w.old }
        ensures row { record { line = self.new; nets = w.new; done = finish_of (received_reply t.now.protocol self.old.line m) result } ≡ after_row t.now (reply_input self.old.line m) (received_reply t.now.protocol self.old.line m) self.old w.old }
        ensures complete { is_some result ≡ completes (reply_input self.old.line m) }
    {
        self.outcome_of_reply(t, m, w)
    }

    /// Takes an acknowledgement of an invalidation, and answers the outstanding store where it was the last: then it is done, with the stamp that
    /// the line had before. None is answered where more are missing, or their number or the data is.
    pub fn take_ack(&mut self, t: &Tables, m: Reply, w: &mut Wires) -> Option<Finished>
        requires kind { IsInvAck m }
        requires ready { IsReady t.now (reply_input self.old.line m) (received_reply t.now.protocol self.old.line m) self.old w.old }
        ensures row { record { line = self.new; nets = w.new; done = finish_of (received_reply t.now.protocol self.old.line m) result } ≡ after_row t.now (reply_input self.old.line m) (received_reply t.now.protocol self.old.line m) self.old w.old }
        ensures complete { is_some result ≡ completes (reply_input self.old.line m) }
    {
        self.outcome_of_reply(t, m, w)
    }

    /// Whether the line lets a message wait: its state has a row for it, which is the stall row.
    pub fn stalls(&self, t: &Tables, m: &Ordered) -> bool
        requires { IsMadeWith t.now self.now }
        ensures { result ≡ has_stall_row t.now.cache self.now.line m.now }
    {
        match t
            .cache()
            .find(self.registers.state(), self.registers.ordered_input(*m))
        {
            Some(row) => is_stall_row(row),
            None => false,
        }
    }

    /// The line's state.
    pub fn desc(&self, t: &Tables) -> Desc
        requires { IsMadeWith t.now self.now }
        ensures { result ≡ self.now.line.desc }
    {
        t.cache().desc(self.registers.state())
    }

    /// The word that it holds.
    pub fn word(&self) -> u32
        ensures { result ≡ self.now.line.word }
    {
        self.registers.word()
    }

    /// The stamp of the request that last gave or changed its stable state.
    pub fn stamp(&self) -> u32
        ensures { result ≡ self.now.line.stamp }
    {
        self.registers.stamp()
    }

    /// The operation that is outstanding, or none where the state is stable.
    pub fn pending(&self) -> Option<Op>
        ensures exact { result ≡ self.now.line.pending }
        ensures stable { is_none result ≡ is_stable self.now.line.desc }
        ensures outstanding { HasOutstanding self.now.line }
    {
        self.registers.pending()
    }

    /// What the core may do with the line now. A store that was granted nothing yet leaves the permission of the state in which it began; another
    /// outstanding operation leaves none.
    pub fn usable(&self, t: &Tables) -> Perm
        ensures { result ≡ perms.usable t.now.protocol self.now.line.desc }
    {
        usable_in(t.protocol().draft(), self.registers.desc())
    }
}

fn usable_in(draft: &Draft, desc: Desc) -> Perm
    ensures { result ≡ perms.usable draft.now desc }
{
    match desc {
        Desc::Stable(state) => perm_at(draft, state),
        Desc::Ask {
            event: Event::Store,
            start,
            phase: Phase::Ad,
            tag: Tag::Plain,
        } => perm_at(draft, start),
        Desc::Ask {
            event: Event::Store,
            start,
            phase: Phase::Ac,
            tag: Tag::Plain,
        } => perm_at(draft, start),
        _ => Perm::None,
    }
}
