use super::*;
use pg_messages::WorldEvent::{Issue, Reply, Request};
use pg_messages::{DoneEntry, Finished};
use pg_perm::{Event, Step};
use std::test::Fail;

/// One core stores and then loads what it stored.
const STEPS: &[Step] = &[
    Step::Txn(0, Event::Store),
    Step::Store(0, 1),
    Step::Load(0, 1),
];

const DONE: &[DoneEntry] = &[
    DoneEntry {
        stamp: 1,
        core: 0,
        fin: Finished::Store(1),
        late: false,
    },
    DoneEntry {
        stamp: 1,
        core: 0,
        fin: Finished::Load(1),
        late: false,
    },
];

const SUMMARY: &str = "drill seed 1 cores 1 blocks 1 ops 2
txns 1
stale 0
loads 1
late 0
stores 1
events 4
sum 1
end
";

#[test]
fn a_block_is_counted_and_summed_up(rt: HostRuntime) -> Result<(), Fail> {
    let alloc = rt.alloc();
    let journal = [(0, Issue(0)), (0, Request(0)), (0, Reply(0)), (0, Issue(0))];
    let tally = Tally::empty().plus(tally_of(STEPS, DONE, journal.as_slice()));
    let text = summary_text(alloc, 1, 1, 1, 2, &tally)?;
    assert_eq!(rt; text.as_slice(), SUMMARY.as_bytes());
    Ok(())
}
