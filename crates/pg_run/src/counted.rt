ghost use Rattle.std.specs.Prelude.{◌≡◌, ◌<◌, true, length, slice_get, Some};
ghost use Rattle.pg_table.specs.Pick.{pick};
ghost use Rattle.pg_reached.specs.Reached.{IsReachedWorld};
ghost use Rattle.pg_world.specs.Enabled.{enabled_events};
ghost use Rattle.pg_run.specs.Schedules as schedules;
ghost use Rattle.pg_run.specs.Systems as systems;

use pg_messages::WorldEvent;
use pg_world::World;
use std::marker::Model;

/// The world of a block, with the number of its enabled events: it changes only with the world, so it is counted once for each event.
#[derive(Drop)]
pub struct Counted {
    world: World,
    enabled: u32,
}

impl Model for Counted {
    ghost use Rattle.std.specs.Prelude.{◌≡◌, length};
    ghost use Rattle.pg_table.specs.Pick.{pick};
    ghost use Rattle.pg_world.specs.Enabled.{enabled_events};
    ghost use Rattle.pg_world.specs.Kept.{WorldView};

    ghost Value = { WorldView };

    ghost view = { λ w. w.world };

    ghost invariant = { λ w. w.enabled ≡ length (enabled_events (pick w.world.tables.cache) w.world.world) };
}

impl Counted {
    pub fn new(world: World) -> Counted
        ensures exact { result ≡ world }
        ensures reached { IsReachedWorld result.tables.protocol result.tables.cache result.given result.world }
    {
        let _journal = world.journal();
        let enabled = world.count_enabled();
        Counted { world, enabled }
    }

    /// Whether an event is enabled.
    pub fn is_active(&self) -> bool
        ensures { result ≡ schedules.is_active (pick self.now.tables.cache) self.now.world }
    {
        self.enabled > 0
    }

    /// The enabled event at a pick, modulo their number.
    fn event_at(&self, k: u64) -> WorldEvent
        requires { schedules.is_active (pick self.now.tables.cache) self.now.world ≡ true }
        ensures { schedules.event_at k (enabled_events (pick self.now.tables.cache) self.now.world) ≡ Some result }
    {
        let at = k % u64::from(self.enabled);
        self.world.nth_enabled(at as u32)
    }

    /// The enabled event at a pick happens, as of seat 0.
    pub fn advance(&mut self, k: u64)
        requires { schedules.is_active (pick self.old.tables.cache) self.old.world ≡ true }
        ensures { self.new ≡ systems.advanced k self.old }
    {
        let e = self.event_at(k);
        self.world.step(0, e);
        self.enabled = self.world.count_enabled();
    }

    pub fn world(&self) -> &World
        ensures exact { result.now ≡ self.now }
        ensures reached { IsReachedWorld self.now.tables.protocol self.now.tables.cache self.now.given self.now.world }
    {
        let _journal = self.world.journal();
        &self.world
    }
}
