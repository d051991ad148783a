use crate::table::{ControllerRow, ControllerState, ControllerTable};
use pg_perm::{Left, ReqClass, Sequence, Who};

/// A state of the directory controller.
#[derive(Clone, Copy, Debug, PartialEq, Eq)]
pub enum DirDesc {
    /// It is in this state, and waits for nothing.
    State(u8),
    /// It waits for the data that an owner writes back, and then goes to this state.
    Busy(u8),
}

/// What a directory controller meets.
#[derive(Clone, Copy, Debug, PartialEq, Eq)]
pub enum DirInput {
    /// A READ or a WRITE, and what its sender is.
    Ask(ReqClass, Who),
    /// An evict, what its sender is, and whether sharers are left without it.
    Evict(Who, Left),
    /// An evict of a core that is neither owner nor sharer.
    EvictNone,
    /// A READ or a WRITE, while it is busy.
    BusyAsk(ReqClass),
    /// An evict, while it is busy.
    BusyEvict,
    /// The data that an owner writes back.
    Wb,
}

/// What a directory controller does.
#[derive(Clone, Copy, Debug, PartialEq, Eq)]
pub enum DirAct {
    /// Memory's data goes to the requestor.
    Reply(u8),
    /// The request is passed on to the owner.
    Forward(u8),
    /// Each sharer but the requestor is sent an invalidation.
    Inv,
    /// The requestor is told how many acknowledgements to wait for.
    AckCount,
    /// Memory takes the word that came, if one did.
    Write,
    /// The requestor is told that its evict was handled.
    PutAck,
    /// The request stays where it is.
    Stall,
}

pub type DirActs = Sequence<DirAct>;

pub type DirRow = ControllerRow<DirInput, DirAct>;

pub type DirTableState = ControllerState<DirDesc, DirInput, DirAct>;

/// The table of the directory controller.
pub type DirTable = ControllerTable<DirDesc, DirInput, DirAct>;
