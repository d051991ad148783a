/// What a core may do with a block whose line is in a stable state.
#[derive(Clone, Copy, Debug, PartialEq, Eq)]
pub enum Perm {
    None,
    Read,
    Write,
}

/// What the directory knows of a cache that is in a stable state.
#[derive(Clone, Copy, Debug, PartialEq, Eq)]
pub enum Role {
    /// It holds no copy.
    Out,
    /// It is one of the sharers.
    Shared,
    /// It is the owner.
    Owner,
}

/// Whom a directory state knows of.
#[derive(Clone, Copy, Debug, PartialEq, Eq)]
pub enum DirKind {
    /// No cache.
    Idle,
    /// Sharers and no owner.
    Shared,
    /// An owner and no sharers.
    Owned,
    /// An owner, and perhaps sharers.
    Mixed,
}

/// What a request asks of the directory.
#[derive(Clone, Copy, Debug, PartialEq, Eq)]
pub enum ReqClass {
    /// A copy to read.
    Read,
    /// A copy to write.
    Write,
    /// To give up a copy that memory has too.
    Clean,
    /// To give up a copy that memory may lack, and write it back.
    Dirty,
}

/// What a forward from the directory asks of a cache.
#[derive(Clone, Copy, Debug, PartialEq, Eq)]
pub enum FwdClass {
    /// To give up a shared copy and acknowledge it.
    Inv,
    /// To send data to the requestor and to memory, and become a sharer.
    Share,
    /// To send data to the requestor, and stay the owner.
    Keep,
    /// To send data to the requestor, and hold no copy.
    Drop,
}

/// What a core does with a block.
#[derive(Clone, Copy, Debug, PartialEq, Eq)]
pub enum Event {
    Load,
    Store,
    Evict,
}

/// An operation of a core on a block, with the word that a store writes.
#[derive(Clone, Copy, Debug, PartialEq, Eq)]
pub enum Op {
    Load,
    Store(u32),
    Evict,
}

/// An operation that reads or writes the block's word.
#[derive(Clone, Copy, Debug, PartialEq, Eq)]
pub enum Access {
    Load,
    Store(u32),
}

/// What the sender of a request is to the directory.
#[derive(Clone, Copy, Debug, PartialEq, Eq)]
pub enum Who {
    /// Neither the owner nor a sharer.
    Other,
    Sharer,
    Owner,
}

/// Whether sharers are left once the sender of an evict is taken away.
#[derive(Clone, Copy, Debug, PartialEq, Eq)]
pub enum Left {
    /// None is left.
    Last,
    /// Some are left.
    More,
}

/// What a generated cache does with a forward that is later than its own transaction.
#[derive(Clone, Copy, Debug, PartialEq, Eq)]
pub enum Mode {
    /// It lets the forward wait until its own transaction is done.
    Stall,
    /// It takes the forward at once: it acknowledges an invalidation, and answers another when its own transaction is done.
    Defer,
}

/// Where the transaction of a forward stands to the one that the cache has outstanding.
#[derive(Clone, Copy, Debug, PartialEq, Eq)]
pub enum Side {
    Before,
    After,
}
