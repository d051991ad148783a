use pg_perm::{Left, ReqClass, Who};

/// What a directory state has a row line for.
#[derive(Clone, Copy, Debug, PartialEq, Eq)]
pub enum DirCase {
    /// The first request of a class, which is READ or WRITE, and what its sender is.
    Ask(ReqClass, Who),
    /// An evict, what its sender is, and whether sharers are left.
    Evict(Who, Left),
}
