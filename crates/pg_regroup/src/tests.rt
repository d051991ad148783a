use super::*;
use pg_messages::{DoneEntry, Finished, OrderEntry};
use pg_perm::{Event, Step};
use std::test::Fail;

fn request(core: u32, event: Event, stale: bool) -> OrderEntry {
    OrderEntry { core, event, stale }
}

fn done(stamp: u32, core: u32, fin: Finished, late: bool) -> DoneEntry {
    DoneEntry {
        stamp,
        core,
        fin,
        late,
    }
}

#[test]
fn a_late_load_stands_before_a_store_that_was_completed_earlier(
    rt: HostRuntime,
) -> Result<(), Fail> {
    let order = [
        request(0, Event::Load, false),
        request(1, Event::Store, false),
    ];
    let done = [
        done(2, 1, Finished::Store(7), false),
        done(1, 0, Finished::Load(0), true),
    ];
    let wanted = [
        Step::Txn(0, Event::Load),
        Step::Load(0, 0),
        Step::Txn(1, Event::Store),
        Step::Store(1, 7),
    ];
    assert_eq!(rt;
        serial_steps(rt.alloc(), 2, &order, &done)?.as_slice(),
        wanted.as_slice()
    );
    Ok(())
}

#[test]
fn accesses_of_one_stamp_stand_by_core_and_then_as_they_were_completed(
    rt: HostRuntime,
) -> Result<(), Fail> {
    let order = [
        request(0, Event::Load, false),
        request(1, Event::Load, false),
    ];
    let done = [
        done(2, 1, Finished::Load(9), false),
        done(2, 0, Finished::Load(9), false),
        done(2, 0, Finished::Load(8), false),
        done(3, 0, Finished::Load(7), false),
        done(0, 2, Finished::Store(6), false),
        done(0, 1, Finished::Store(5), false),
    ];
    let wanted = [
        Step::Store(1, 5),
        Step::Txn(0, Event::Load),
        Step::Txn(1, Event::Load),
        Step::Load(0, 9),
        Step::Load(0, 8),
        Step::Load(1, 9),
    ];
    assert_eq!(rt;
        serial_steps(rt.alloc(), 2, &order, &done)?.as_slice(),
        wanted.as_slice()
    );
    Ok(())
}

#[test]
fn an_evict_is_a_transaction_or_stale(rt: HostRuntime) -> Result<(), Fail> {
    let order = [
        request(0, Event::Store, false),
        request(0, Event::Evict, false),
        request(0, Event::Evict, true),
    ];
    let done = [
        done(1, 0, Finished::Store(5), false),
        done(2, 0, Finished::Evict, false),
        done(3, 0, Finished::Evict, false),
    ];
    let wanted = [
        Step::Txn(0, Event::Store),
        Step::Store(0, 5),
        Step::Txn(0, Event::Evict),
        Step::Stale(0),
    ];
    assert_eq!(rt;
        serial_steps(rt.alloc(), 1, &order, &done)?.as_slice(),
        wanted.as_slice()
    );
    Ok(())
}
