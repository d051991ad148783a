use super::*;
use pg_messages::Ordered;
use std::test::*;

#[test]
fn acknowledgements_before_their_number(rt: HostRuntime) -> Result<(), Fail> {
    let mut acks = Acks::fresh();
    acks.got_one();
    assert!(rt; !acks.done());
    assert!(rt; acks.would_finish(1));
    assert!(rt; !acks.would_finish(0));
    acks.need_is(2);
    assert!(rt; !acks.done());
    assert!(rt; acks.next_is_last());
    acks.got_one();
    assert!(rt; acks.done());
    assert!(rt; !acks.next_is_last());
    Ok(())
}

#[test]
fn the_oldest_comes_first(rt: HostRuntime) -> Result<(), Fail> {
    let (one, two) = (Ordered::PutAck { stamp: 1 }, Ordered::PutAck { stamp: 2 });
    let mut deferred = Deferred::make(rt.alloc(), 2)?;
    deferred.push(one);
    deferred.push(two);
    assert_eq!(rt; deferred.len(), 2);
    assert_eq!(rt; deferred.pop(), Some(one));
    assert_eq!(rt; deferred.pop(), Some(two));
    assert_eq!(rt; deferred.pop(), None);
    Ok(())
}
