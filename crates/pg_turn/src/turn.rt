ghost use Rattle.std.specs.Prelude.{◌≡◌, ◌<◌};

use crate::kept::Kept;
use crate::order::Order;
use crate::view::{Origin, View};
use atomic_table::{Seat, Table};
use std::alloc::Global;

/// A value that passes take turns at. To a contract it has the value that it was made of, and the number of its passes.
#[derive(Drop)]
pub struct Turn<T: Kept> {
    pub(crate) table: Table<Option<T>, View<T, T::Entry>, Origin<T>, Order<T>, Global>,
    ghost words: { table.shared.table_id.words ≡ 1 },
    ghost slots: { table.shared.table_id.slots ≡ 1 },
    ghost some: { 0 < table.shared.key.seats },
}

/// The right to take the value of its turn. To a contract it has its number, the entries that it has seen, those that it made, how often it found the
/// value taken, and whether it holds it. The turn can be closed only with all its passes.
#[derive(Drop)]
pub struct Pass<T: Kept> {
    pub(crate) number: u32,
    pub(crate) seat: Seat<Option<T>, View<T, T::Entry>>,
}

impl<T: Kept> Pass<T> {
    /// Its number among the passes of its turn, from 0 on.
    pub fn number(&self) -> u32
        ensures { result ≡ self.now.number }
    {
        self.number
    }
}
