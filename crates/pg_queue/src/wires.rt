ghost use Rattle.std.specs.Prelude.{◌≡◌, ◌<◌, ◌≤◌, ◌+◌, IfOk, length, slice_get, Some, IsSome, get_or, None, []};
ghost use Rattle.pg_queue.specs.Nets as nets;

use crate::queue::Queue;
use pg_messages::{Ask, Ordered, Reply};
use std::alloc::{AllocError, Global};
use std::marker::Model;

/// The networks of a block of n cores: a slot for the request of each core, a list of messages from the directory to each core, which are taken
/// in the order in which they were sent, and the replies in order of sending, of which any may be taken next.
///
/// At most `n * n + 1` messages, requests aside, are on their way in a block. `make` takes the room for them, so that nothing takes memory
/// afterwards, and `spare` says for how many more there is room.
#[derive(Drop)]
pub struct Wires {
    slots: Vec<Option<Ask>>,
    queues: Vec<Queue>,
    replies: Vec<Reply>,
    spare: u32,
}

impl Model for Wires {
    ghost use Rattle.std.specs.Prelude.{length, vec_capacity};
    ghost use Rattle.pg_queue.specs.Nets.{Nets, lists_of, HasRoom};

    ghost Value = { Nets };

    ghost view = { λ w. record { slots = w.slots.items; lists = lists_of w.queues.items; replies = w.replies.items } };

    ghost invariant = { λ w. HasRoom (length w.slots.items) w.queues.items w.replies.items (vec_capacity w.replies) w.spare };
}

impl Wires {
    #[tactic(auto, using(crate::proofs::Rooms::lists_last, crate::proofs::Rooms::replicate_last, crate::proofs::Rooms::room_last, crate::proofs::Rooms::empty_count))]
    /// The networks of a block of 1 to 64 cores, with nothing in them.
    pub fn make(alloc: Global, cores: u32) -> Result<Wires, AllocError>
        requires { cores ≤ 64 }
        ensures { IfOk result (λ w. w ≡ nets.empty_nets cores) }
    {
        let room = cores * cores + 1;
        let slots = vec![in alloc; None; cores as usize]?;
        let mut queues = Vec::with_capacity(alloc, cores as usize)?;
        let replies = Vec::with_capacity(alloc, room as usize)?;
        let mut i = 0;
        while i < cores {
            let queue = Queue::make(alloc, room as usize)?;
            queues.push_reserved(queue);
            i += 1;
        }
        Ok(Wires {
            slots,
            queues,
            replies,
            spare: room,
        })
    }

    /// Puts a request into a core's slot. One that stood there would be lost.
    pub fn ask(&mut self, core: u32, a: Ask)
        requires { core < length self.old.slots }
        ensures { self.new ≡ nets.with_request core a self.old }
    {
        self.slots[core as usize] = Some(a);
    }

    /// The request in a core's slot, or none where the slot is empty.
    pub fn asked(&self, core: u32) -> Option<Ask>
        requires { core < length self.now.slots }
        ensures { result ≡ get_or self.now.slots core None }
    {
        self.slots[core as usize]
    }

    /// Takes the request out of a core's slot.
    pub fn take_ask(&mut self, core: u32) -> Ask
        requires core { core < length self.old.slots }
        requires full { IsSome (get_or self.old.slots core None) }
        ensures request { get_or self.old.slots core None ≡ Some result }
        ensures rest { self.new ≡ nets.without_request core self.old }
    {
        self.slots[core as usize].take().unwrap()
    }

    /// Sends a message from the directory to a core, behind those on their way to it.
    pub fn order_to(&mut self, core: u32, m: Ordered)
        requires core { core < length self.old.slots }
        requires spare { 0 < nets.spare self.old }
        ensures { self.new ≡ nets.with_ordered core m self.old }
    {
        self.spare -= 1;
        self.queues[core as usize].push(m);
    }

    /// The next message from the directory to a core, or none where none is on its way.
    pub fn head(&self, core: u32) -> Option<Ordered>
        requires { core < length self.now.slots }
        ensures { result ≡ slice_get (get_or self.now.lists core []) 0 }
    {
        self.queues[core as usize].head().copied()
    }

    /// Takes the next message from the directory to a core.
    pub fn take_head(&mut self, core: u32) -> Ordered
        requires core { core < length self.old.slots }
        requires some { 0 < length (get_or self.old.lists core []) }
        ensures first { slice_get (get_or self.old.lists core []) 0 ≡ Some result }
        ensures rest { self.new ≡ nets.without_head core self.old }
    {
        let message = self.queues[core as usize].pop();
        self.spare += 1;
        message
    }

    /// Sends a reply.
    pub fn send(&mut self, m: Reply)
        requires { 0 < nets.spare self.old }
        ensures { self.new ≡ nets.with_reply m self.old }
    {
        self.spare -= 1;
        self.replies.push_reserved(m);
    }

    /// How many replies are on their way.
    pub fn replies(&self) -> u32
        ensures { result ≡ length self.now.replies }
    {
        self.replies.len() as u32
    }

    /// The reply at a place in the order of sending, from 0 on.
    pub fn reply_at(&self, i: u32) -> Reply
        requires { i < length self.now.replies }
        ensures { slice_get self.now.replies i ≡ Some result }
    {
        self.replies[i as usize]
    }

    /// Takes the reply at a place. The others keep their order.
    pub fn take_reply(&mut self, i: u32) -> Reply
        requires { i < length self.old.replies }
        ensures reply { slice_get self.old.replies i ≡ Some result }
        ensures rest { self.new ≡ nets.without_reply i self.old }
    {
        self.spare += 1;
        self.replies.remove(i as usize)
    }

    /// For how many messages from the directory and replies more there is room.
    pub fn spare(&self) -> u32
        ensures spare { result ≡ nets.spare self.now }
        ensures all { result + (nets.ordered_count self.now.lists + length self.now.replies) ≡ nets.message_limit (length self.now.slots) }
        ensures lists { length self.now.lists ≡ length self.now.slots }
    {
        self.spare
    }
}
