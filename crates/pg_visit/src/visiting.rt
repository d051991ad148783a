ghost use Rattle.std.specs.Prelude.{◌≡◌, ◌++◌, ◌∷◌, [], true, false, IfSome, IfNone};
ghost use Rattle.pg_table.specs.Pick.{pick};
ghost use Rattle.pg_controllers.specs.Worlds.{is_enabled};
ghost use Rattle.pg_safe.specs.Moving.{is_finished};
ghost use Rattle.pg_turn.specs.Passes.{IsOf, first_value, is_holding, made_by, seen_by};
ghost use Rattle.pg_world.specs.Turns.{root_of, journal_of};
ghost use Rattle.pg_visit.specs.Visits.{IsOneMore, SawFinished};

use pg_messages::WorldEvent;
use pg_turn::{Kept, Pass, Turn};
use pg_world::World;
use std::sync::Wait;

/// An event happens, as of a seat.
fn step(world: &mut World, by: u32, e: WorldEvent)
    requires { is_enabled (pick world.old.tables.cache) world.old.world e ≡ true }
    ensures root { root_of world.new ≡ root_of world.old }
    ensures journal { journal_of world.new ≡ journal_of world.old ++ (by, e) ∷ [] }
{
    world.step(by, e);
}

/// Makes an enabled event happen in the world that a pass has taken, and gives the world back. The event's entry in the journal names the pass.
pub fn step_and_give(turn: &Turn<World>, pass: &mut Pass<World>, mut world: World, e: WorldEvent)
    requires pass { IsOf turn.now pass.old }
    requires holding { is_holding pass.old ≡ true }
    requires root { root_of world ≡ root_of (first_value turn.now) }
    requires seen { seen_by pass.old ≡ journal_of world }
    requires enabled { is_enabled (pick world.tables.cache) world.world e ≡ true }
    ensures pass { IsOf turn.now pass.new }
    ensures idle { is_holding pass.new ≡ false }
    ensures number { pass.new.number ≡ pass.old.number }
    ensures events { made_by pass.new ≡ made_by pass.old ++ (pass.old.number, e) ∷ [] }
{
    step(&mut world, pass.number(), e);
    let _short = world.count();
    turn.give(pass, world);
}

/// The first enabled event, or none where the world is finished.
fn first_enabled(world: &World) -> Option<WorldEvent>
    ensures some { IfSome result (λ e. is_enabled (pick world.now.tables.cache) world.now.world e ≡ true) }
    ensures none { IfNone result (is_finished world.now.world ≡ true) }
{
    let _journal = world.journal();
    if world.finished() {
        None
    } else {
        Some(world.nth_enabled(0))
    }
}

/// Waits for the turn of a block's world, makes its first enabled event happen where there is one, and gives the world back. Answers whether there was
/// one: where not, the world that was taken is finished.
pub fn visit<R: Wait>(rt: &R, turn: &Turn<World>, pass: &mut Pass<World>) -> bool
    requires pass { IsOf turn.now pass.old }
    requires idle { is_holding pass.old ≡ false }
    ensures pass { IsOf turn.now pass.new }
    ensures idle { is_holding pass.new ≡ false }
    ensures number { pass.new.number ≡ pass.old.number }
    ensures stepped { result ≡ true → IsOneMore pass.old.number (made_by pass.old) (made_by pass.new) }
    ensures quiet { result ≡ false → (made_by pass.new ≡ made_by pass.old) × SawFinished (root_of (first_value turn.now)) (seen_by pass.new) }
{
    let world = turn.take(rt, pass);
    match first_enabled(&world) {
        Some(e) => {
            step_and_give(turn, pass, world, e);
            true
        }
        None => {
            let _short = world.count();
            turn.give(pass, world);
            false
        }
    }
}
