ghost use Rattle.std.specs.Prelude.{◌≡◌, ◌<◌, ◌≤◌, ◌+◌, ◌||◌, true, length, slice_get, Some, IfSome};
ghost use Rattle.pg_directory.specs.DirEntries.{is_among};
ghost use Rattle.pg_block.specs.Blocks as blocks;
ghost use Rattle.pg_world.specs.Indexed as index;

use crate::marks::Marks;
use pg_block::Block;
use pg_messages::{Reply, WorldEvent};
use std::marker::Model;

/// By kind of event, the cores of a block at which one may be enabled: so that the enabled events are counted and picked without a look at each core.
#[derive(Drop)]
pub struct Index {
    issues: Marks,
    requests: Marks,
    heads: Marks,
}

impl Model for Index {
    ghost use Rattle.pg_world.specs.Indexed.{Index};

    ghost Value = { Index };

    ghost view = { λ x. record { issues = x.issues; requests = x.requests; heads = x.heads } };
}

/// The core that takes part in an event that is enabled, if one does: the directory takes data that was written back alone.
pub fn core_in(block: &Block, e: WorldEvent) -> Option<u32>
    requires { blocks.enabled_at e block.now ≡ true }
    ensures { result ≡ index.core_in e block.now }
{
    match e {
        WorldEvent::Issue(core) => Some(core),
        WorldEvent::Request(core) => Some(core),
        WorldEvent::Ordered(core) => Some(core),
        WorldEvent::Reply(i) => receiver(block.wires.reply_at(i)),
    }
}

fn receiver(m: Reply) -> Option<u32>
    ensures { result ≡ index.receiver m }
{
    match m {
        Reply::Data { core, .. } => Some(core),
        Reply::InvAck { core, .. } => Some(core),
        Reply::WbData { .. } => None,
    }
}

impl Index {
    #[tactic(auto, using(crate::proofs::Follows::index_begins, crate::proofs::Follows::index_goes_on, crate::proofs::Follows::index_ends))]
    /// The index of a block of 1 to 64 cores.
    pub fn of(block: &Block) -> Index
        requires few { length block.now.lines ≤ 64 }
        requires tells { blocks.CanTell block.now }
        ensures { result ≡ index.index_of block.now }
    {
        let mut all = Index {
            issues: Marks::new(),
            requests: Marks::new(),
            heads: Marks::new(),
        };
        let cores = block.cores() as u32;
        let mut core = 0;
        while core < cores {
            all.renew(block, core);
            core += 1;
        }
        all
    }

    /// Looks at one core anew.
    fn renew(&mut self, block: &Block, core: u32)
        requires few { length block.now.lines ≤ 64 }
        requires tells { blocks.CanTell block.now }
        requires core { core < length block.now.lines }
        ensures { self.new ≡ index.renewed block.now core self.old }
    {
        self.issues
            .mark(core, block.is_enabled(WorldEvent::Issue(core)));
        self.requests.mark(core, block.has_request(core));
        self.heads
            .mark(core, block.is_enabled(WorldEvent::Ordered(core)));
    }

    /// Whether a core could take its next message before, or can now.
    fn can_take(&self, block: &Block, core: u32) -> bool
        requires tells { blocks.CanTell block.now }
        requires core { core < 64 }
        ensures { result ≡ (is_among self.now.heads core || index.can_take block.now core) }
    {
        self.heads.has(core) || block.is_enabled(WorldEvent::Ordered(core))
    }

    #[tactic(auto, using(crate::proofs::CoresWhere::none_below, crate::proofs::CoresWhere::next_below, crate::proofs::CoresWhere::all_below))]
    /// Looks anew at the next message of each core that had none that it could take.
    fn renew_heads(&mut self, block: &Block)
        requires few { length block.now.lines ≤ 64 }
        requires tells { blocks.CanTell block.now }
        ensures { self.new ≡ index.with_new_heads block.now self.old }
    {
        let mut heads = Marks::new();
        let cores = block.cores() as u32;
        let mut core = 0;
        while core < cores {
            heads.mark(core, self.can_take(block, core));
            core += 1;
        }
        self.heads = heads;
    }

    /// Follows an event that has happened in a block, in which a core took part or none.
    pub fn follow(&mut self, block: &Block, e: WorldEvent, core: Option<u32>)
        requires few { length block.now.lines ≤ 64 }
        requires tells { blocks.CanTell block.now }
        requires core { IfSome core (λ c. c < length block.now.lines) }
        ensures { self.new ≡ index.index_after e core block.now self.old }
    {
        if let Some(core) = core {
            self.renew(block, core);
        }
        if let WorldEvent::Request(_) = e {
            self.renew_heads(block);
        }
    }

    #[tactic(auto, using(crate::proofs::Follows::event_count))]
    /// How many events are enabled, where the directory is busy or not and this many replies are on their way.
    pub fn count(&self, busy: bool, replies: u32) -> u32
        requires { replies ≤ 4097 }
        ensures { result ≡ length (index.indexed_events busy replies self.now) }
    {
        self.issues.len() + self.requests(busy) + self.heads.len() + replies
    }

    #[tactic(auto, using(crate::proofs::Follows::event_count, crate::proofs::Follows::issue_at, crate::proofs::Follows::request_at, crate::proofs::Follows::head_at, crate::proofs::Follows::reply_at))]
    /// The enabled event at a place, from 0 on.
    pub fn nth(&self, busy: bool, replies: u32, i: u32) -> WorldEvent
        requires few { replies ≤ 4097 }
        requires within { i < length (index.indexed_events busy replies self.now) }
        ensures { slice_get (index.indexed_events busy replies self.now) i ≡ Some result }
    {
        let issues = self.issues.len();
        let requests = issues + self.requests(busy);
        let heads = requests + self.heads.len();
        if i < issues {
            WorldEvent::Issue(self.issues.nth(i))
        } else if i < requests {
            WorldEvent::Request(self.requests.nth(i - issues))
        } else if i < heads {
            WorldEvent::Ordered(self.heads.nth(i - requests))
        } else {
            WorldEvent::Reply(i - heads)
        }
    }

    /// How many requests are enabled.
    fn requests(&self, busy: bool) -> u32
        ensures requests { result ≡ length (index.unless_busy busy self.now.requests) }
        ensures few { result ≤ 64 }
    {
        if busy { 0 } else { self.requests.len() }
    }
}
