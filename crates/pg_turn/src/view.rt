use std::collections::LinkedList;
use std::snapshot::Snapshot;

/// What a pass may tell of the entries: those that it has seen, and those of them that it made. No value of it is made.
pub struct Past<E> {
    pub number: u64,
    pub seen: LinkedList<E>,
    pub mine: LinkedList<E>,
}

/// What the seat of a pass knows. No value of it is made.
pub struct View<T, E> {
    /// False where another seat took this one in.
    pub live: bool,
    /// How many seats there are, at the one that is split; else 0.
    pub given: u64,
    /// The value at making.
    pub origin: Option<T>,
    pub own: Past<E>,
    pub misses: u64,
    pub holds: bool,
    /// Of the seats that this one took in.
    pub joined: LinkedList<Past<E>>,
}

/// What a turn was made of: the value, as contracts see it, and the number of passes.
pub struct Origin<T> {
    pub value: Snapshot<T>,
    pub seats: u32,
}

impl<T> Drop for Origin<T> {
    fn drop(self) {
        let Self { value: _, seats: _ } = self;
    }
}
