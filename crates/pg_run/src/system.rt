ghost use Rattle.std.specs.Prelude.{◌≡◌, ◌<◌, ◌≤◌, ◌-◌, ◌%◌, true, length, map, slice_get, Some, IfOk};
ghost use Rattle.std.specs.List.{All, find, range_with_len};
ghost use Rattle.std.specs.Option.{option_map_or, is_some};
ghost use Rattle.pg_table.specs.Pick.{pick};
ghost use Rattle.pg_controllers.specs.Runs.{opening};
ghost use Rattle.pg_safe.specs.Moving.{is_finished};
ghost use Rattle.pg_run.specs.Schedules as schedules;
ghost use Rattle.pg_run.specs.Systems as systems;

use crate::counted::Counted;
use crate::draws::Draws;
use crate::opening::all_opened;
use pg_script::Script;
use pg_table::Tables;
use pg_world::World;
use std::alloc::{AllocError, Global};
use std::marker::Model;
use std::sync::Arc;

/// The worlds of all blocks of a script. All follow the same tables, and each is reached.
#[derive(Drop)]
pub struct System {
    tables: Arc<Tables>,
    blocks: Vec<Counted>,
}

impl Model for System {
    ghost use Rattle.pg_run.specs.Systems.{SystemView, system_of, IsSystem};

    ghost Value = { SystemView };

    ghost view = { λ s. system_of s.tables.value s.blocks.items };

    ghost invariant = { λ s. IsSystem s.tables.value s.blocks.items };
}

impl System {
    /// The worlds of the blocks of a script, in which nothing has happened yet. They take all the memory that they will ever need.
    pub fn make(alloc: Global, tables: Arc<Tables>, script: &Script) -> Result<System, AllocError>
        ensures tables { IfOk result (λ s. s.tables ≡ tables.value) }
        ensures given { IfOk result (λ s. s.given ≡ systems.todo_of script.now) }
        ensures opening { IfOk result (λ s. s.worlds ≡ map (opening tables.value.protocol) (systems.todo_of script.now)) }
    {
        let _ops = script.ops();
        let blocks = all_opened(alloc, &tables, script)?;
        Ok(System { tables, blocks })
    }

    /// The first block from one place on, up to another, that has an enabled event.
    fn first_active(&self, from: usize, to: usize) -> Option<usize>
        requires within { to ≤ length self.now.worlds }
        ensures { result ≡ find (systems.active_at self.now) (range_with_len from (to - from)) }
    {
        let mut i = from;
        while i < to {
            if self.blocks[i].is_active() {
                return Some(i);
            }
            i += 1;
        }
        None
    }

    /// The first block at or after a pick, modulo the number of blocks, that has an enabled event, around the circle.
    fn active_block(&self, k: u64) -> Option<usize>
        ensures { result ≡ schedules.active_block self.now.tables.protocol (pick self.now.tables.cache) self.now.worlds (k % length self.now.worlds) }
    {
        let blocks = self.blocks.len();
        let from = (k % blocks as u64) as usize;
        match self.first_active(from, blocks) {
            Some(block) => Some(block),
            None => self.first_active(0, from),
        }
    }

    /// What comes next at a pick happens. Answers whether there was anything.
    fn advance(&mut self, k: u64) -> bool
        ensures turn { self.new ≡ systems.after_pick k self.old }
        ensures any { result ≡ is_some (systems.turn_at self.old k) }
        ensures reached { systems.IsReachedSystem self.old }
    {
        match self.active_block(k) {
            None => false,
            Some(block) => {
                self.blocks[block].advance(k);
                true
            }
        }
    }

    /// Events happen on the schedule of a seed until none is enabled in any block. Each block is then finished. No memory is taken.
    pub fn drain(&mut self, seed: u64)
        ensures scheduled { self.new ≡ record self.old { worlds = schedules.scheduled self.old.tables.protocol (pick self.old.tables.cache) seed self.old.worlds } }
        ensures finished { All (λ w. is_finished w ≡ true) self.new.worlds }
    {
        let mut draws = Draws::new(seed);
        while self.advance(draws.next()) {}
    }

    /// How many blocks there are.
    pub fn blocks(&self) -> u32
        ensures blocks { result ≡ length self.now.worlds }
        ensures some { 1 ≤ result }
    {
        self.blocks.len() as u32
    }

    /// The world of a block.
    pub fn world(&self, block: u32) -> &World
        requires { block < length self.now.worlds }
        ensures tables { result.now.tables ≡ self.now.tables }
        ensures given { slice_get self.now.given block ≡ Some result.now.given }
        ensures world { slice_get self.now.worlds block ≡ Some result.now.world }
    {
        self.blocks[block as usize].world()
    }
}
