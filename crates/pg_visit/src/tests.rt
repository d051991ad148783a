//! Turns at the world of a block, by one thread and by two.

ghost use Rattle.std.specs.Prelude.{◌≡◌, ◌<◌, ◌≤◌, length, false, IfOk};
ghost use Rattle.pg_turn.specs.Passes.{IsOf, AreIdle, pass_count, is_holding};

use super::*;
use pg_infer::generate;
use pg_messages::WorldEvent::{self, Issue};
use pg_perm::{Mode, Op};
use pg_samples::MSI;
use pg_shape::shape;
use pg_table::Tables;
use pg_turn::{Kept, Pass, Turn};
use pg_world::{Todo, World};
use std::alloc::{AllocError, Global};
use std::process::Abort;
use std::sync::{Arc, Wait};
use std::test::Fail;
use std::thread::{Threads, join};

/// The tables of MSI.
fn msi(alloc: Global, mode: Mode) -> Result<Arc<Tables>, Fail> {
    let (draft, _) = pg_text::read(alloc, MSI.as_bytes())?;
    let protocol = shape(draft)?;
    Ok(Arc::new(alloc, generate(alloc, &protocol, mode)?)?)
}

/// The world of two cores with at most 100 operations each.
fn two_cores(
    alloc: Global,
    tables: Arc<Tables>,
    first: Vec<Op>,
    second: Vec<Op>,
) -> Result<World, AllocError>
    requires first { length first.items ≤ 100 }
    requires second { length second.items ≤ 100 }
{
    let mut todo = Todo::new(alloc);
    todo.add_core(first)?;
    todo.add_core(second)?;
    World::make(alloc, tables, todo)
}

/// The turn of a world, with its two passes.
fn two_passes(alloc: Global, world: World) -> Result<(Turn<World>, Pass<World>, Pass<World>), Fail>
    ensures turn { IfOk result (λ made. pass_count made.0 ≡ 2) }
    ensures first { IfOk result (λ made. IsOf made.0 made.1 × (made.1.number ≡ 0) × (is_holding made.1 ≡ false)) }
    ensures second { IfOk result (λ made. IsOf made.0 made.2 × (made.2.number ≡ 1) × (is_holding made.2 ≡ false)) }
{
    let _short = world.count();
    let Ok((turn, mut passes)) = Turn::make(alloc, world, 2) else {
        return Err(Fail::from("memory"));
    };
    let Some(second) = passes.pop() else {
        unreachable!()
    };
    let Some(first) = passes.pop() else {
        unreachable!()
    };
    Ok((turn, first, second))
}

/// The world, at the end.
fn close(
    alloc: Global,
    turn: Turn<World>,
    first: Pass<World>,
    second: Pass<World>,
) -> Result<World, AllocError>
    requires turn { pass_count turn ≡ 2 }
    requires first { IsOf turn first × (first.number ≡ 0) × (is_holding first ≡ false) }
    requires second { IsOf turn second × (second.number ≡ 1) × (is_holding second ≡ false) }
{
    let mut passes = Vec::with_capacity(alloc, 2)?;
    passes.push_reserved(first);
    passes.push_reserved(second);
    Ok(turn.close(passes))
}

/// A pass takes the world, which has this journal, and steps it once.
fn step_once(
    rt: &impl Abort,
    turn: &Turn<World>,
    pass: &mut Pass<World>,
    journal: &[(u32, WorldEvent)],
    e: WorldEvent,
) -> Result<(), Fail>
    requires pass { IsOf turn.now pass.old }
    requires idle { is_holding pass.old ≡ false }
    ensures pass { IfOk result (λ _. IsOf turn.now pass.new) }
    ensures idle { IfOk result (λ _. is_holding pass.new ≡ false) }
    ensures number { IfOk result (λ _. pass.new.number ≡ pass.old.number) }
{
    let Some(world) = turn.try_take(pass) else {
        return Err(Fail::from("nobody holds it"));
    };
    assert_eq!(rt; world.journal(), journal);
    assert!(rt; world.enabled(e));
    step_and_give(turn, pass, world, e);
    Ok(())
}

#[test]
fn two_passes_step_a_world_in_turn(rt: HostRuntime) -> Result<(), Fail> {
    let alloc = rt.alloc();
    let first = vec![in alloc; Op::Store(5)]?;
    let second = vec![in alloc; Op::Load]?;
    let opening = two_cores(alloc, msi(alloc, Mode::Stall)?, first, second)?;
    let (turn, mut first, mut second) = two_passes(alloc, opening)?;
    let Some(world) = turn.try_take(&mut first) else {
        return Err(Fail::from("nobody holds it"));
    };
    assert!(rt; turn.try_take(&mut second).is_none());
    assert!(rt; world.enabled(Issue(0)));
    step_and_give(&turn, &mut first, world, Issue(0));
    let before = [(0, Issue(0))];
    step_once(&rt, &turn, &mut second, before.as_slice(), Issue(1))?;
    let world = close(alloc, turn, first, second)?;
    assert_eq!(rt; world.journal(), [(0, Issue(0)), (1, Issue(1))].as_slice());
    Ok(())
}

/// Visits the world so many times.
fn visit_often<R: Wait>(
    rt: &R,
    turn: &Turn<World>,
    mut pass: Pass<World>,
    visits: u32,
) -> Pass<World>
    requires { IsOf turn.now pass × (is_holding pass ≡ false) }
    ensures { IsOf turn.now result × (is_holding result ≡ false) × (result.number ≡ pass.number) }
{
    for _ in 0..visits {
        let _ = visit(rt, turn, &mut pass);
    }
    pass
}

/// Two threads visit the world as often.
fn visit_both<R: Threads + Wait + Abort + Sync>(
    rt: &R,
    alloc: Global,
    world: World,
    visits: u32,
) -> Result<World, Fail> {
    let (turn, first, second) = two_passes(alloc, world)?;
    let (first, second) = join(
        rt,
        || -> Pass<World>
            requires { IsOf turn first × (is_holding first ≡ false) × (first.number ≡ 0) }
            ensures { IsOf turn result × (is_holding result ≡ false) × (result.number ≡ 0) }
        { visit_often(rt, &turn, first, visits) },
        || -> Pass<World>
            requires { IsOf turn second × (is_holding second ≡ false) × (second.number ≡ 1) }
            ensures { IsOf turn result × (is_holding result ≡ false) × (result.number ≡ 1) }
        { visit_often(rt, &turn, second, visits) },
    );
    Ok(close(alloc, turn, first, second)?)
}

/// So many loads.
fn loads(alloc: Global, count: usize) -> Result<Vec<Op>, AllocError>
    ensures { IfOk result (λ ops. length ops.items ≡ count) }
{
    Ok(vec![in alloc; Op::Load; count]?)
}

/// The world of two cores with 100 loads each.
fn all_loads(alloc: Global) -> Result<World, Fail> {
    let tables = msi(alloc, Mode::Defer)?;
    let first = loads(alloc, 100)?;
    let second = loads(alloc, 100)?;
    Ok(two_cores(alloc, tables, first, second)?)
}

/// Has the events of a journal happen again, by the same seats.
fn replay(rt: &impl Abort, world: &mut World, journal: &[(u32, WorldEvent)]) {
    for (by, event) in journal {
        assert!(rt; world.enabled(*event), "{event:?}");
        world.step(*by, *event);
    }
}

#[test]
fn two_threads_leave_a_world_that_its_journal_gives(rt: HostRuntime) -> Result<(), Fail> {
    let alloc = rt.alloc();
    let world = visit_both(&rt, alloc, all_loads(alloc)?, 1000)?;
    assert!(rt; world.finished());
    let mut again = all_loads(alloc)?;
    replay(&rt, &mut again, world.journal());
    assert_eq!(rt; again.journal(), world.journal());
    assert_eq!(rt; again.order(), world.order());
    assert_eq!(rt; again.done(), world.done());
    assert_eq!(rt; world.done().len(), 200);
    Ok(())
}
