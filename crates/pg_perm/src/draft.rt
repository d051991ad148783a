use crate::kinds::{DirKind, Event, FwdClass, Left, Perm, ReqClass, Role, Who};
use crate::sequence::Sequence;
use crate::word::Word;

/// Numbers of cache states.
pub type States = Sequence<u8>;

pub type Pairs = Sequence<Pair>;

pub type Caches = Sequence<CacheLine>;

pub type Dirs = Sequence<DirLine>;

pub type Messages = Sequence<MsgLine>;

pub type Cores = Sequence<CoreLine>;

pub type Takes = Sequence<TakeLine>;

pub type Rows = Sequence<RowLine>;

/// A protocol as its text states it, line by line.
///
/// Cache states, directory states and messages are numbered from 0, each kind for itself, in the order in which the text
/// declares them. Each `line` is the number of a line of the text, from 1.
#[derive(Clone, Debug, Drop, PartialEq, Eq)]
pub struct Draft {
    pub line: u32,
    pub name: Word,
    pub caches: Caches,
    pub dirs: Dirs,
    /// Requests, forwards and replies, in this order.
    pub messages: Messages,
    pub cores: Cores,
    pub takes: Takes,
    pub rows: Rows,
}

/// A cache state. One that is `clean` has in memory what it has in the cache.
#[derive(Clone, Debug, Drop, PartialEq, Eq)]
pub struct CacheLine {
    pub line: u32,
    pub name: Word,
    pub role: Role,
    pub perm: Perm,
    pub clean: bool,
}

/// A directory state, and in which states its owner may be.
#[derive(Clone, Debug, Drop, PartialEq, Eq)]
pub struct DirLine {
    pub line: u32,
    pub name: Word,
    pub kind: DirKind,
    pub beside: States,
}

#[derive(Clone, Debug, Drop, PartialEq, Eq)]
pub struct MsgLine {
    pub line: u32,
    pub name: Word,
    pub class: MsgClass,
}

/// Which way a message goes, and what it asks.
#[derive(Clone, Copy, Debug, PartialEq, Eq)]
pub enum MsgClass {
    /// From a core to the directory.
    Request(ReqClass),
    /// From the directory to a core.
    Forward(FwdClass),
    /// Data, to a core that asked.
    Reply,
}

/// What a core does at an event in a stable state.
#[derive(Clone, Debug, Drop, PartialEq, Eq)]
pub struct CoreLine {
    pub line: u32,
    pub state: u8,
    pub event: Event,
    pub form: CoreForm,
}

#[derive(Clone, Debug, Drop, PartialEq, Eq)]
pub enum CoreForm {
    /// It is done at once, and the line goes to the state that is named, or stays.
    Hit(Option<u8>),
    /// It asks, and the reply that comes decides the final state.
    Ask { request: u8, pairs: Pairs },
    /// It gives its copy up.
    Leave { request: u8 },
}

/// A reply, and the final state of who gets it.
#[derive(Clone, Copy, Debug, PartialEq, Eq)]
pub struct Pair {
    pub reply: ReplyName,
    pub fin: u8,
}

#[derive(Clone, Copy, Debug, PartialEq, Eq)]
pub enum ReplyName {
    /// The number of acknowledgements to wait for, without data.
    AckCount,
    Reply(u8),
}

/// What a cache does with a forward in a stable state.
#[derive(Clone, Copy, Debug, PartialEq, Eq)]
pub struct TakeLine {
    pub line: u32,
    pub state: u8,
    pub forward: u8,
    pub reply: Option<u8>,
    pub next: u8,
}

/// What the directory does with a request in one of its states.
#[derive(Clone, Copy, Debug, PartialEq, Eq)]
pub struct RowLine {
    pub line: u32,
    pub dir: u8,
    pub form: RowForm,
    pub next: u8,
}

#[derive(Clone, Copy, Debug, PartialEq, Eq)]
pub enum RowForm {
    Ask {
        request: u8,
        who: Who,
        action: Action,
    },
    Evict {
        who: Who,
        left: Left,
    },
}

#[derive(Clone, Copy, Debug, PartialEq, Eq)]
pub enum Action {
    /// Data from memory.
    Reply(u8),
    /// The request is passed on to the owner.
    Forward(u8),
    /// The requestor is told how many acknowledgements to wait for.
    Count,
}
