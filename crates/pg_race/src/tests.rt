use super::*;
use pg_perm::{Event, FwdClass, Role, Side};

#[test]
fn each_line_of_the_order(rt: HostRuntime) {
    for (start, event, granted, class, wanted) in [
        (
            Role::Shared,
            Event::Store,
            false,
            FwdClass::Inv,
            Side::Before,
        ),
        (Role::Shared, Event::Store, true, FwdClass::Inv, Side::After),
        (
            Role::Shared,
            Event::Store,
            false,
            FwdClass::Share,
            Side::After,
        ),
        (
            Role::Shared,
            Event::Store,
            false,
            FwdClass::Drop,
            Side::After,
        ),
        (Role::Out, Event::Load, false, FwdClass::Inv, Side::After),
        (Role::Out, Event::Store, false, FwdClass::Keep, Side::After),
        (
            Role::Owner,
            Event::Store,
            false,
            FwdClass::Keep,
            Side::Before,
        ),
        (
            Role::Owner,
            Event::Store,
            false,
            FwdClass::Drop,
            Side::Before,
        ),
        (Role::Owner, Event::Store, true, FwdClass::Drop, Side::After),
        (
            Role::Owner,
            Event::Evict,
            false,
            FwdClass::Share,
            Side::Before,
        ),
        (
            Role::Shared,
            Event::Evict,
            false,
            FwdClass::Inv,
            Side::Before,
        ),
    ] {
        assert_eq!(rt;
            order(start, event, granted, class),
            wanted,
            "{start:?} {event:?} {granted} {class:?}"
        );
    }
}
