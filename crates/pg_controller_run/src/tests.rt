//! Worked runs of the controllers: worlds whose events are given one by one, and scripts on the schedule of a seed.

ghost use Rattle.std.specs.Prelude.{◌≤◌, length};

use super::*;
use pg_history::journal_text;
use pg_infer::generate;
use pg_messages::WorldEvent::{self, Issue, Ordered, Reply, Request};
use pg_messages::{DoneEntry, Finished};
use pg_perm::{Event, Fault, Mode, Op, Rule, Step};
use pg_run::System;
use pg_samples::{MESI, MOSI, MSI};
use pg_script::{Script, ScriptError};
use pg_shape::{Protocol, shape};
use pg_table::Tables;
use pg_world::{Todo, World};
use std::alloc::{AllocError, Global};
use std::process::Abort;
use std::sync::Arc;
use std::test::Fail;

fn protocol_of(rt: &impl Abort, alloc: Global, text: &str) -> Result<Protocol, Fail> {
    assert!(rt; text.len() < 1_000_000);
    let (draft, _) = pg_text::read(alloc, text.as_bytes())?;
    Ok(shape(draft)?)
}

fn tables_of(rt: &impl Abort, alloc: Global, text: &str, mode: Mode) -> Result<Arc<Tables>, Fail> {
    let protocol = protocol_of(rt, alloc, text)?;
    Ok(Arc::new(alloc, generate(alloc, &protocol, mode)?)?)
}

fn script_of(rt: &impl Abort, alloc: Global, text: &str) -> Result<Script, Fail> {
    assert!(rt; text.len() < 1_000_000);
    Ok(pg_script::read(alloc, text.as_bytes())?)
}

/// The world of two cores with at most two operations each.
fn two_cores(
    alloc: Global,
    tables: Arc<Tables>,
    first: Vec<Op>,
    second: Vec<Op>,
) -> Result<World, AllocError>
    requires first { length first.items ≤ 2 }
    requires second { length second.items ≤ 2 }
{
    let mut todo = Todo::new(alloc);
    todo.add_core(first)?;
    todo.add_core(second)?;
    World::make(alloc, tables, todo)
}

/// The world of a core with at most two operations and two cores that load.
fn three_cores(alloc: Global, tables: Arc<Tables>, first: Vec<Op>) -> Result<World, AllocError>
    requires { length first.items ≤ 2 }
{
    let mut todo = Todo::new(alloc);
    todo.add_core(first)?;
    todo.add_core(vec![in alloc; Op::Load]?)?;
    todo.add_core(vec![in alloc; Op::Load]?)?;
    World::make(alloc, tables, todo)
}

/// Has these events happen one by one, each of which can happen when it comes.
fn happen(rt: &impl Abort, world: &mut World, events: &[WorldEvent]) {
    for event in events {
        assert!(rt; world.enabled(*event), "{event:?}");
        world.step(0, *event);
    }
}

/// Checks that everything is done, and which steps the history has in serial order.
fn ends_with(rt: &impl Abort, alloc: Global, world: &World, steps: &[Step]) -> Result<(), Fail> {
    assert!(rt; world.finished());
    let history = serial(alloc, world)?;
    assert_eq!(rt; history.as_slice(), steps);
    Ok(())
}

/// The requests of cores 0 and 1 are both handled.
const BOTH_ASKED: &[WorldEvent] = &[Issue(0), Issue(1), Request(0), Request(1)];

#[test]
fn a_load_that_is_late_stands_before_the_store_that_was_done_earlier(
    rt: HostRuntime,
) -> Result<(), Fail> {
    let alloc = rt.alloc();
    let tables = tables_of(&rt, alloc, MSI, Mode::Defer)?;
    let load = vec![in alloc; Op::Load]?;
    let store = vec![in alloc; Op::Store(7)]?;
    let mut world = two_cores(alloc, tables, load, store)?;
    happen(&rt, &mut world, BOTH_ASKED);
    happen(&rt, &mut world, [Ordered(0), Reply(1)].as_slice());
    assert!(rt; world.done().is_empty());
    happen(&rt, &mut world, [Reply(1)].as_slice());
    let stored = DoneEntry {
        stamp: 2,
        core: 1,
        fin: Finished::Store(7),
        late: false,
    };
    assert_eq!(rt; world.done(), [stored].as_slice());
    happen(&rt, &mut world, [Reply(0)].as_slice());
    let loaded = DoneEntry {
        stamp: 1,
        core: 0,
        fin: Finished::Load(0),
        late: true,
    };
    assert_eq!(rt; world.done(), [stored, loaded].as_slice());
    let steps = [
        Step::Txn(0, Event::Load),
        Step::Load(0, 0),
        Step::Txn(1, Event::Store),
        Step::Store(1, 7),
    ];
    // Two cores with two operations have at most 2 * (2 * 2 + 2) events.
    assert_eq!(rt; world.journal().len(), 8);
    assert!(rt; world.journal().len() <= 12);
    assert_eq!(rt; world.count_enabled(), 0);
    ends_with(&rt, alloc, &world, steps.as_slice())
}

#[test]
fn an_invalidation_waits_for_the_load_in_stall_mode(rt: HostRuntime) -> Result<(), Fail> {
    let alloc = rt.alloc();
    let tables = tables_of(&rt, alloc, MSI, Mode::Stall)?;
    let load = vec![in alloc; Op::Load]?;
    let store = vec![in alloc; Op::Store(7)]?;
    let mut world = two_cores(alloc, tables, load, store)?;
    happen(&rt, &mut world, BOTH_ASKED);
    assert!(rt; !world.enabled(Ordered(0)));
    Ok(())
}

/// Core 0 stores, core 1 loads from it, and core 0, which is the owner that may only read now, begins its second store.
const OWNER_STORES_AGAIN: &[WorldEvent] = &[
    Issue(0),
    Request(0),
    Reply(0),
    Issue(1),
    Request(1),
    Ordered(0),
    Reply(0),
    Issue(0),
];

/// The opening world of MOSI in which a core is to store twice, and two cores are to load.
fn two_stores_and_two_loads(rt: &impl Abort, alloc: Global) -> Result<World, Fail> {
    let tables = tables_of(rt, alloc, MOSI, Mode::Defer)?;
    let stores = vec![in alloc; Op::Store(1), Op::Store(2)]?;
    Ok(three_cores(alloc, tables, stores)?)
}

/// The world in which an owner that may only read has begun a store, and a third core is still to load.
fn owner_stores_again(rt: &impl Abort, alloc: Global) -> Result<World, Fail> {
    let mut world = two_stores_and_two_loads(rt, alloc)?;
    happen(rt, &mut world, OWNER_STORES_AGAIN);
    Ok(world)
}

/// The most events of three cores with four operations.
const MOST_EVENTS: u32 = 4 * (2 * 3 + 2);

#[test]
fn there_is_room_for_each_event_until_all_is_done(rt: HostRuntime) -> Result<(), Fail> {
    let alloc = rt.alloc();
    let mut world = two_stores_and_two_loads(&rt, alloc)?;
    for _ in 0..MOST_EVENTS {
        if world.count_enabled() == 0 {
            break;
        }
        assert!(rt; !world.finished());
        assert!(rt; 0 < world.room());
        let first = world.nth_enabled(0);
        happen(&rt, &mut world, [first].as_slice());
    }
    assert!(rt; world.finished());
    Ok(())
}

/// The load comes before the owner's second store.
const LOAD_FIRST: &[WorldEvent] = &[Issue(2), Request(2), Request(0)];

/// The owner has the number of acknowledgements and the sharers are invalidated, and then all replies come.
const SHARERS_ANSWER: &[WorldEvent] = &[
    Ordered(0),
    Ordered(1),
    Ordered(2),
    Reply(1),
    Reply(1),
    Reply(0),
];

const LOAD_FIRST_STEPS: &[Step] = &[
    Step::Txn(0, Event::Store),
    Step::Store(0, 1),
    Step::Txn(1, Event::Load),
    Step::Load(1, 1),
    Step::Txn(2, Event::Load),
    Step::Load(2, 1),
    Step::Txn(0, Event::Store),
    Step::Store(0, 2),
];

#[test]
fn a_forward_before_the_owners_second_store_is_answered_at_once(
    rt: HostRuntime,
) -> Result<(), Fail> {
    let alloc = rt.alloc();
    let mut world = owner_stores_again(&rt, alloc)?;
    happen(&rt, &mut world, LOAD_FIRST);
    assert!(rt; !world.enabled(Reply(0)));
    happen(&rt, &mut world, [Ordered(0)].as_slice());
    assert!(rt; world.enabled(Reply(0)));
    happen(&rt, &mut world, SHARERS_ANSWER);
    let late = DoneEntry {
        stamp: 3,
        core: 2,
        fin: Finished::Load(1),
        late: true,
    };
    assert_eq!(rt; world.done().last(), Some(&late));
    ends_with(&rt, alloc, &world, LOAD_FIRST_STEPS)
}

/// The load comes after the owner's second store, and the owner takes the number of acknowledgements and then the forward.
const STORE_FIRST: &[WorldEvent] = &[Request(0), Issue(2), Request(2), Ordered(0), Ordered(0)];

/// The sharer is invalidated, and then all replies come.
const SHARER_ANSWERS: &[WorldEvent] = &[Ordered(1), Reply(0), Reply(0)];

const STORE_FIRST_STEPS: &[Step] = &[
    Step::Txn(0, Event::Store),
    Step::Store(0, 1),
    Step::Txn(1, Event::Load),
    Step::Load(1, 1),
    Step::Txn(0, Event::Store),
    Step::Store(0, 2),
    Step::Txn(2, Event::Load),
    Step::Load(2, 2),
];

#[test]
fn a_forward_after_the_owners_second_store_is_deferred(rt: HostRuntime) -> Result<(), Fail> {
    let alloc = rt.alloc();
    let mut world = owner_stores_again(&rt, alloc)?;
    happen(&rt, &mut world, STORE_FIRST);
    assert!(rt; !world.enabled(Reply(0)));
    happen(&rt, &mut world, SHARER_ANSWERS);
    assert_eq!(rt; world.home().owner(), Some(0));
    ends_with(&rt, alloc, &world, STORE_FIRST_STEPS)
}

/// Core 0 loads and begins to evict, core 1's load is passed on to it, the directory has its data, and only then the evict is handled.
const SHARED_WHILE_EVICTING: &[WorldEvent] = &[
    Issue(0),
    Request(0),
    Reply(0),
    Issue(0),
    Issue(1),
    Request(1),
    Ordered(0),
    Reply(1),
    Request(0),
    Ordered(0),
    Reply(0),
];

const SHARED_WHILE_EVICTING_STEPS: &[Step] = &[
    Step::Txn(0, Event::Load),
    Step::Load(0, 0),
    Step::Txn(1, Event::Load),
    Step::Load(1, 0),
    Step::Txn(0, Event::Evict),
];

#[test]
fn an_evicting_owner_that_shares_its_copy_is_evicted_as_a_sharer(
    rt: HostRuntime,
) -> Result<(), Fail> {
    let alloc = rt.alloc();
    for mode in [Mode::Stall, Mode::Defer] {
        let tables = tables_of(&rt, alloc, MESI, mode)?;
        let first = vec![in alloc; Op::Load, Op::Evict]?;
        let second = vec![in alloc; Op::Load]?;
        let mut world = two_cores(alloc, tables, first, second)?;
        happen(&rt, &mut world, SHARED_WHILE_EVICTING);
        ends_with(&rt, alloc, &world, SHARED_WHILE_EVICTING_STEPS)?;
    }
    Ok(())
}

/// Core 0 stores and begins to evict, core 1's store is passed on to it, and only then the evict is handled.
const TAKEN_WHILE_EVICTING: &[WorldEvent] = &[
    Issue(0),
    Request(0),
    Reply(0),
    Issue(0),
    Issue(1),
    Request(1),
    Ordered(0),
    Request(0),
    Ordered(0),
    Reply(0),
];

const TAKEN_WHILE_EVICTING_STEPS: &[Step] = &[
    Step::Txn(0, Event::Store),
    Step::Store(0, 5),
    Step::Txn(1, Event::Store),
    Step::Store(1, 6),
    Step::Stale(0),
];

#[test]
fn an_evict_whose_copy_was_taken_is_stale(rt: HostRuntime) -> Result<(), Fail> {
    let alloc = rt.alloc();
    for mode in [Mode::Stall, Mode::Defer] {
        let tables = tables_of(&rt, alloc, MSI, mode)?;
        let first = vec![in alloc; Op::Store(5), Op::Evict]?;
        let second = vec![in alloc; Op::Store(6)]?;
        let mut world = two_cores(alloc, tables, first, second)?;
        happen(&rt, &mut world, TAKEN_WHILE_EVICTING);
        assert_eq!(rt; world.home().memory(), 0);
        ends_with(&rt, alloc, &world, TAKEN_WHILE_EVICTING_STEPS)?;
    }
    Ok(())
}

/// A core stores, and another one loads.
const STORE_AND_LOAD: &str = "cores 2\nblocks 1\nop 0 store 0 5\nop 1 load 0\ndone\n";

const STORE_AND_LOAD_TOLD: &str =
    "block 0\ntxn 1 c0 store\nacc 1 c0 store 5\ntxn 2 c1 load\nacc 2 c1 load 5\nend\n";

const STORE_AND_LOAD_STEPS: &[Step] = &[
    Step::Txn(0, Event::Store),
    Step::Store(0, 5),
    Step::Txn(1, Event::Load),
    Step::Load(1, 5),
];

/// By mode, the events that happen in turn if always the first one that can happen does.
const FIRST_EVENTS: &[(Mode, &'static str)] = &[
    (Mode::Stall, "journal 0 I0 I1 Q0 Q1 R0 O0 R0 R0\n"),
    (Mode::Defer, "journal 0 I0 I1 Q0 Q1 O0 R0 R0 R0\n"),
];

#[test]
fn seed_zero_takes_the_first_event_that_can_happen(rt: HostRuntime) -> Result<(), Fail> {
    let alloc = rt.alloc();
    let script = script_of(&rt, alloc, STORE_AND_LOAD)?;
    for (mode, journal) in FIRST_EVENTS {
        let tables = tables_of(&rt, alloc, MSI, *mode)?;
        let mut system = System::make(alloc, tables, &script)?;
        system.drain(0);
        assert_eq!(rt; system.blocks(), 1);
        let world = system.world(0);
        let text = journal_text(alloc, 0, world.journal())?;
        assert_eq!(rt; text.as_slice(), journal.as_bytes());
        ends_with(&rt, alloc, world, STORE_AND_LOAD_STEPS)?;
    }
    Ok(())
}

/// A mode, a seed, a script, and the text of its histories.
type Told = (Mode, u64, &'static str, &'static str);

/// Checks that scripts on the controllers of MSI have these histories.
fn are_told(rt: &impl Abort, alloc: Global, cases: &[Told]) -> Result<(), Fail> {
    let protocol = protocol_of(rt, alloc, MSI)?;
    for (mode, seed, script, wanted) in cases {
        let script = script_of(rt, alloc, script)?;
        let text = controller_run(alloc, &protocol, *mode, *seed, &script)?;
        assert_eq!(rt; text.as_slice(), wanted.as_bytes(), "{wanted:?}");
    }
    Ok(())
}

#[test]
fn a_load_gives_the_word_of_the_store_before_it(rt: HostRuntime) -> Result<(), Fail> {
    are_told(
        &rt,
        rt.alloc(),
        &[
            (Mode::Stall, 0, STORE_AND_LOAD, STORE_AND_LOAD_TOLD),
            (Mode::Defer, 0, STORE_AND_LOAD, STORE_AND_LOAD_TOLD),
        ],
    )
}

/// A core evicts what it doesn't hold, stores the largest word, evicts what it holds and loads.
const ONE_CORE: &str = "cores 1
blocks 1
op 0 evict 0
op 0 store 0 4294967295
op 0 evict 0
op 0 load 0
done
";

const ONE_CORE_TOLD: &str = "block 0
txn 1 c0 store
acc 1 c0 store 4294967295
txn 2 c0 evict
txn 3 c0 load
acc 3 c0 load 4294967295
end
";

/// A block that nothing is done on, and one with a store.
const SECOND_BLOCK: &str = "cores 1\nblocks 2\nop 0 store 1 3\ndone\n";

const SECOND_BLOCK_TOLD: &str = "block 0\nblock 1\ntxn 1 c0 store\nacc 1 c0 store 3\nend\n";

/// One core can do the events of a block in one order alone, so each seed tells the same.
const OF_ONE_CORE: &[Told] = &[
    (Mode::Stall, 0, ONE_CORE, ONE_CORE_TOLD),
    (
        Mode::Defer,
        18_446_744_073_709_551_615,
        ONE_CORE,
        ONE_CORE_TOLD,
    ),
    (Mode::Defer, 0, SECOND_BLOCK, SECOND_BLOCK_TOLD),
    (Mode::Stall, 1, SECOND_BLOCK, SECOND_BLOCK_TOLD),
    (
        Mode::Stall,
        0,
        "cores 1\nblocks 1\ndone\n",
        "block 0\nend\n",
    ),
    (
        Mode::Defer,
        7,
        "cores 1\nblocks 1\ndone\n",
        "block 0\nend\n",
    ),
];

#[test]
fn one_core_makes_its_accesses_in_order_whatever_the_seed(rt: HostRuntime) -> Result<(), Fail> {
    are_told(&rt, rt.alloc(), OF_ONE_CORE)
}

/// On block 0 a core evicts what it stored while another one stores. On block 1 a core evicts what it doesn't hold, and loads.
const TWO_BLOCKS: &str = "cores 2
blocks 2
op 1 evict 1
op 0 store 0 5
op 1 load 1
op 1 store 0 6
op 0 evict 0
done
";

/// While forwards wait, the first core stores and begins to evict before it takes the other's forward. The directory knows of the other store by then, so the evict is stale.
const STALE_EVICT_TOLD: &str = "block 0
txn 1 c0 store
acc 1 c0 store 5
txn 2 c1 store
acc 2 c1 store 6
stale 3 c0
block 1
txn 1 c1 load
acc 1 c1 load 0
end
";

/// Where forwards are deferred, the first core has given its copy to the other by the time it evicts, so there is no request.
const SKIPPED_EVICT_TOLD: &str = "block 0
txn 1 c0 store
acc 1 c0 store 5
txn 2 c1 store
acc 2 c1 store 6
block 1
txn 1 c1 load
acc 1 c1 load 0
end
";

#[test]
fn a_stale_request_is_told_in_its_block(rt: HostRuntime) -> Result<(), Fail> {
    are_told(
        &rt,
        rt.alloc(),
        &[
            (Mode::Stall, 0, TWO_BLOCKS, STALE_EVICT_TOLD),
            (Mode::Defer, 0, TWO_BLOCKS, SKIPPED_EVICT_TOLD),
        ],
    )
}

/// The first fault of a script.
fn fault_of(rt: &impl Abort, alloc: Global, text: &str) -> Option<Fault> {
    assert!(rt; text.len() < 1_000_000);
    match pg_script::read(alloc, text.as_bytes()) {
        Err(ScriptError::Fault(fault)) => Some(fault),
        _ => None,
    }
}

#[test]
fn a_script_with_a_fault_is_not_run(rt: HostRuntime) -> Result<(), Fail> {
    let alloc = rt.alloc();
    for (text, line, rule) in [
        ("cores 32\nblocks 1\nop 32 load 0\ndone\n", 3, Rule::C2),
        ("", 1, Rule::C4),
    ] {
        assert_eq!(rt; fault_of(&rt, alloc, text), Some(Fault { line, rule }));
    }
    Ok(())
}
