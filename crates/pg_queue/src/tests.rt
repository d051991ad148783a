use super::*;
use pg_messages::{Ask, Ordered, Reply};
use pg_perm::Event;
use std::test::*;

#[test]
fn requests_messages_and_replies(rt: HostRuntime) -> Result<(), Fail> {
    let ask = Ask {
        request: 0,
        event: Event::Load,
        word: None,
    };
    let (one, two) = (Ordered::PutAck { stamp: 1 }, Ordered::PutAck { stamp: 2 });
    let first = Reply::InvAck { core: 0, stamp: 1 };
    let second = Reply::WbData { word: 7, stamp: 2 };
    let mut wires = Wires::make(rt.alloc(), 2)?;
    assert_eq!(rt; wires.spare(), 5);
    wires.ask(1, ask);
    assert_eq!(rt; wires.asked(0), None);
    assert_eq!(rt; wires.asked(1), Some(ask));
    assert_eq!(rt; wires.take_ask(1), ask);
    assert_eq!(rt; wires.asked(1), None);
    wires.order_to(0, one);
    wires.order_to(0, two);
    wires.send(first);
    wires.send(second);
    assert_eq!(rt; wires.spare(), 1);
    assert_eq!(rt; wires.head(1), None);
    assert_eq!(rt; wires.take_head(0), one);
    assert_eq!(rt; wires.head(0), Some(two));
    assert_eq!(rt; wires.reply_at(1), second);
    assert_eq!(rt; wires.take_reply(0), first);
    assert_eq!(rt; wires.replies(), 1);
    assert_eq!(rt; wires.reply_at(0), second);
    assert_eq!(rt; wires.spare(), 3);
    Ok(())
}
