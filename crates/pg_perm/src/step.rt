use crate::kinds::Event;
use crate::sequence::Sequence;

pub type Steps = Sequence<Step>;

/// A step of a block's history. Its first number is the core that makes it, from 0.
#[derive(Clone, Copy, Debug, PartialEq, Eq)]
pub enum Step {
    /// A whole transaction: the core gains a permission, or gives its copy up.
    Txn(u32, Event),
    /// An evict of a core that holds no copy any more, which changes nothing.
    Stale(u32),
    /// A load, and the word that it reads.
    Load(u32, u32),
    /// A store, and the word that it writes.
    Store(u32, u32),
}
