ghost use Rattle.std.specs.Prelude.{◌≡◌, ◌<◌, ◌^◌, length};

use crate::todo::Todo;
use crate::world::World;
use pg_messages::WorldEvent;
use pg_table::Tables;
use pg_turn::Kept;

/// What never changes of a world. No value of it is made.
pub struct WorldRoot {
    pub tables: Tables,
    pub given: Todo,
    pub limit: usize,
}

/// A world's entries are its journal, and the maker of an entry is the seat that made the event.
impl Kept for World {
    ghost use Rattle.pg_world.specs.Turns.{root_of, journal_of, seat_of};

    type Root = WorldRoot;

    type Entry = (u32, WorldEvent);

    ghost root = { root_of };

    ghost entries = { journal_of };

    ghost maker = { seat_of };

    #[tactic(auto, using(crate::proofs::Worlds::journal_few))]
    /// How long the journal is. It is always short enough to be given back.
    fn count(&self) -> u64
        ensures exact { result ≡ length self.now.world.journal }
        ensures few { result < 2 ^ 62 }
    {
        self.journal().len() as u64
    }
}
