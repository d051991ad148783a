ghost use Rattle.std.specs.Prelude.{ℕ, ◌≡◌, ◌<◌, ◌≤◌, ◌+◌, ◌*◌, true, false, length, slice_get, IfOk, Some};
ghost use Rattle.pg_table.specs.Pick.{pick};
ghost use Rattle.pg_controllers.specs.Runs.{opening};
ghost use Rattle.pg_controllers.specs.Worlds as worlds;
ghost use Rattle.pg_safe.specs.Moving.{is_finished};
ghost use Rattle.pg_reached.specs.Reached.{IsReachedWorld};
ghost use Rattle.pg_block.specs.Blocks as blocks;
ghost use Rattle.pg_world.specs.Kept as kept;
ghost use Rattle.pg_world.specs.Enabled as events;

use crate::index::{Index, core_in};
use crate::todo::Todo;
use pg_block::Block;
use pg_cache::Line;
use pg_dir::Home;
use pg_messages::{DoneEntry, OrderEntry, WorldEvent};
use pg_table::Tables;
use std::alloc::{AllocError, Global};
use std::marker::Model;
use std::sync::Arc;

/// The world of a block: its cores with their lines and the operations that they have still to begin, its networks, its directory, and what happened
/// so far: the requests that the directory handled, the loads and stores that are done, and the journal of all events.
///
/// Each world is reached: its journal leads to it from the world in which each core has all its operations to do and nothing has happened.
/// docs/MODEL.md tells the events, and what holds of each world that is reached. Once it is made, nothing of it takes memory.
#[derive(Drop)]
pub struct World {
    block: Block,
    index: Index,
}

impl Model for World {
    ghost use Rattle.std.specs.Prelude.{◌≡◌};
    ghost use Rattle.pg_world.specs.Kept.{WorldView, view_of, IsKept};
    ghost use Rattle.pg_world.specs.Indexed.{index_of};

    ghost Value = { WorldView };

    ghost view = { λ w. view_of w.block };

    ghost invariant = { λ w. IsKept w.block × (w.index ≡ index_of w.block) };
}

impl World {
    /// The world of a block with 1 to 64 cores and at most 16,384 operations, which are all to do. It follows the tables, and has taken all the memory
    /// that it will ever need.
    pub fn make(alloc: Global, tables: Arc<Tables>, todo: Todo) -> Result<World, AllocError>
        requires few { length todo ≤ 64 }
        requires short { kept.operation_count todo ≤ 16384 }
        ensures tables { IfOk result (λ w. w.tables ≡ tables.value) }
        ensures given { IfOk result (λ w. w.given ≡ todo) }
        ensures opening { IfOk result (λ w. w.world ≡ opening tables.value.protocol todo) }
        ensures room { IfOk result (λ w. w.limit ≡ kept.operation_count todo * (2 * length todo + 2)) }
    {
        let ops = todo.operations();
        let programs = todo.into_programs();
        let _draft = tables.protocol().draft();
        let block = Block::make(alloc, tables, programs, ops)?;
        Ok(World::of(block))
    }

    fn of(block: Block) -> World
        requires { kept.IsKept block }
        ensures { result ≡ kept.view_of block }
    {
        let index = Index::of(&block);
        World { block, index }
    }

    /// Whether an event can happen now. An event of a core that isn't there, or of a reply that isn't, can't.
    pub fn enabled(&self, e: WorldEvent) -> bool
        ensures { result ≡ worlds.is_enabled (pick self.now.tables.cache) self.now.world e }
    {
        self.block.is_enabled(e)
    }

    /// How many events are enabled.
    pub fn count_enabled(&self) -> u32
        ensures { result ≡ length (events.enabled_events (pick self.now.tables.cache) self.now.world) }
    {
        self.index.count(self.home().busy(), self.replies())
    }

    /// The enabled event at a place among those that are enabled, from 0 on: issues, requests and messages from the directory, each by core, and then
    /// replies by place.
    pub fn nth_enabled(&self, i: u32) -> WorldEvent
        requires { i < length (events.enabled_events (pick self.now.tables.cache) self.now.world) }
        ensures { slice_get (events.enabled_events (pick self.now.tables.cache) self.now.world) i ≡ Some result }
    {
        self.index.nth(self.home().busy(), self.replies(), i)
    }

    /// An event that is enabled happens, and is noted in the journal with the number of the seat that made it.
    pub fn step(&mut self, by: u32, e: WorldEvent)
        requires { worlds.is_enabled (pick self.old.tables.cache) self.old.world e ≡ true }
        ensures { self.new ≡ record self.old { world = worlds.step self.old.tables.protocol (pick self.old.tables.cache) self.old.world (by, e) } }
    {
        let core = core_in(&self.block, e);
        self.block.happen(e);
        self.block.note(by, e);
        self.index.follow(&self.block, e, core);
    }

    /// That the world is reached by its journal.
    pub fn journal(&self) -> &[(u32, WorldEvent)]
        ensures exact { result.now ≡ self.now.world.journal }
        ensures reached { IsReachedWorld self.now.tables.protocol self.now.tables.cache self.now.given self.now.world }
    {
        self.block.journal.as_slice()
    }

    /// The line of a core.
    pub fn line(&self, core: u32) -> &Line
        requires { core < length self.now.world.cores }
        ensures { result.now.line ≡ (worlds.core self.now.world core).line }
    {
        self.block.line(core)
    }

    /// The directory.
    pub fn home(&self) -> &Home
        ensures { result.now.directory ≡ self.now.world.directory }
    {
        &self.block.home
    }

    /// The requests that the directory handled, in its order.
    pub fn order(&self) -> &[OrderEntry]
        ensures { result.now ≡ self.now.world.order }
    {
        self.block.order.as_slice()
    }

    /// The loads and stores that are done, in the order in which they were completed.
    pub fn done(&self) -> &[DoneEntry]
        ensures { result.now ≡ self.now.world.done }
    {
        self.block.done.as_slice()
    }

    /// Whether everything is done: no operation is left, each line is at rest, nothing is on its way, and the directory isn't busy.
    pub fn finished(&self) -> bool
        ensures { result ≡ is_finished self.now.world }
    {
        let _ = &self.block;
        self.count_enabled() == 0
    }

    /// How many entries more the journal has room for. There is room until the world is finished.
    pub fn room(&self) -> usize
        ensures room { result + length self.now.world.journal ≡ self.now.limit }
        ensures some { is_finished self.now.world ≡ false → 0 < result }
    {
        self.block.room()
    }

    /// How many cores it has.
    pub fn cores(&self) -> u32
        ensures cores { result ≡ length self.now.world.cores }
        ensures few { result ≤ 64 }
    {
        self.block.cores() as u32
    }

    /// How many replies are on their way.
    fn replies(&self) -> u32
        ensures replies { result ≡ length self.now.world.replies }
        ensures few { result ≤ 4097 }
    {
        self.block.replies()
    }
}
