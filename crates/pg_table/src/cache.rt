use crate::table::{ControllerRow, ControllerState, ControllerTable};
use pg_perm::{Event, Sequence};

/// A state of the cache controller. States and messages have their numbers in the protocol.
#[derive(Clone, Copy, Debug, PartialEq, Eq)]
pub enum Desc {
    /// No operation is outstanding.
    Stable(u8),
    /// A load or a store waits for its answer; it began in the state `start`, or earlier forwards have led it there since.
    Ask {
        event: Event,
        start: u8,
        phase: Phase,
        tag: Tag,
    },
    /// An evict waits for its answer; it began in this state, or earlier forwards have led it there since.
    Leave(u8),
}

/// What an operation still waits for.
#[derive(Clone, Copy, Debug, PartialEq, Eq)]
pub enum Phase {
    /// Data.
    D,
    /// Data, which says how many acknowledgements there are.
    Ad,
    /// A count, which says how many acknowledgements there are.
    Ac,
    /// Acknowledgements alone.
    A,
}

/// What the forwards that are later than an outstanding operation have made of the state in which it will end.
#[derive(Clone, Copy, Debug, PartialEq, Eq)]
pub enum Tag {
    /// None has come.
    Plain,
    /// It was kept: it is an owner that may only read.
    Kept,
    /// It was given to memory: it is a sharer.
    Gave,
    /// It holds nothing any more.
    Gone,
}

/// What a cache controller meets.
#[derive(Clone, Copy, Debug, PartialEq, Eq)]
pub enum Input {
    /// An operation of its core.
    Core(Event),
    Forward(u8),
    /// The number of acknowledgements that are needed, which is the number of those got so far.
    CountAll,
    /// That number, which isn't the number of those got so far.
    CountPart,
    /// The answer to an evict.
    PutAck,
    /// This reply, with a number of acknowledgements that is the number of those got so far.
    DataAll(u8),
    /// This reply, with a number of acknowledgements that isn't the number of those got so far.
    DataPart(u8),
    /// An acknowledgement, after which some are still missing or the number isn't known.
    AckMore,
    /// An acknowledgement, with which all that are needed are there.
    AckLast,
}

/// What a cache controller does.
#[derive(Clone, Copy, Debug, PartialEq, Eq)]
pub enum Act {
    /// The operation is done at once.
    Hit,
    /// There is nothing to evict.
    Skip,
    /// The request goes to the directory.
    Send(u8),
    /// An acknowledgement goes to the core that the forward names.
    Ack,
    /// Data goes to the core that the forward names.
    Give(u8),
    /// Data goes to the directory.
    Wb,
    /// The data that came is taken.
    Fill,
    /// The number that came says how many acknowledgements are needed.
    Need,
    /// One more acknowledgement is got.
    Count,
    /// The outstanding operation is done.
    Done,
    /// The forward is put last among those to be answered once the operation is done.
    Defer,
    /// Those are answered, in their order.
    Serve,
    /// The message stays where it is.
    Stall,
}

pub type Acts = Sequence<Act>;

pub type Row = ControllerRow<Input, Act>;

pub type TableState = ControllerState<Desc, Input, Act>;

/// The table of a cache controller.
pub type Table = ControllerTable<Desc, Input, Act>;
