use super::*;
use pg_messages::WorldEvent;
use pg_perm::{Event, Sequence, Step};
use std::test::Fail;

#[test]
fn a_history_has_a_line_for_each_step(rt: HostRuntime) -> Result<(), Fail> {
    let alloc = rt.alloc();
    let mut steps = Sequence::new(alloc);
    for step in [
        Step::Txn(0, Event::Store),
        Step::Store(0, 5),
        Step::Txn(1, Event::Load),
        Step::Load(1, 5),
        Step::Stale(31),
        Step::Load(1, 4_294_967_295),
        Step::Txn(1, Event::Evict),
    ] {
        steps.push(step)?;
    }
    let wanted =
        "block 7\ntxn 1 c0 store\nacc 1 c0 store 5\ntxn 2 c1 load\nacc 2 c1 load 5\nstale 3 c31\nacc 3 c1 load 4294967295\ntxn 4 c1 evict\n";
    assert_eq!(rt;
        history_text(alloc, 7, &steps)?.as_slice(),
        wanted.as_bytes()
    );
    let none = Sequence::new(alloc);
    assert_eq!(rt;
        history_text(alloc, 0, &none)?.as_slice(),
        b"block 0\n".as_slice()
    );
    Ok(())
}

#[test]
fn a_journal_is_a_line_with_a_word_for_each_event(rt: HostRuntime) -> Result<(), Fail> {
    let alloc = rt.alloc();
    let journal = [
        (0, WorldEvent::Issue(0)),
        (0, WorldEvent::Issue(1)),
        (0, WorldEvent::Request(0)),
        (0, WorldEvent::Request(1)),
        (0, WorldEvent::Ordered(0)),
        (0, WorldEvent::Reply(0)),
        (0, WorldEvent::Reply(0)),
        (0, WorldEvent::Reply(0)),
    ];
    assert_eq!(rt;
        journal_text(alloc, 0, &journal)?.as_slice(),
        b"journal 0 I0 I1 Q0 Q1 O0 R0 R0 R0\n".as_slice()
    );
    assert_eq!(rt;
        journal_text(alloc, 63, &[])?.as_slice(),
        b"journal 63\n".as_slice()
    );
    Ok(())
}
