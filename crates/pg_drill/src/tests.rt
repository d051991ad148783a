//! Worked drills.

use super::*;
use pg_perm::Mode;
use std::alloc::Global;
use std::process::Abort;
use std::test::Fail;

/// A core stores 1 and loads it again.
const TWO_OPERATIONS: &str = "drill seed 1 cores 1 blocks 1 ops 2
txns 1
stale 0
loads 1
late 0
stores 1
events 4
sum 1
end
";

/// The three draws of seed 642502562 are a store.
const ONE_STORE: &str = "drill seed 642502562 cores 1 blocks 1 ops 1
txns 1
stale 0
loads 0
late 0
stores 1
events 3
sum 0
end
";

const TWO_CORES: &str = "drill seed 605079435 cores 2 blocks 1 ops 50
txns 19
stale 0
loads 23
late 0
stores 23
events 106
sum 470
end
";

const THREE_CORES: &str = "drill seed 161642650 cores 3 blocks 2 ops 100
txns 57
stale 5
loads 47
late 3
stores 36
events 283
sum 2190
end
";

/// A seed, how many cores, blocks and operations, and the summary.
type Told = (u64, (u32, u32, u32), &'static str);

fn are_told(rt: &impl Abort, alloc: Global, mode: Mode, cases: &[Told]) -> Result<(), Fail> {
    for (seed, (cores, blocks, ops), wanted) in cases {
        assert!(rt; 1 <= *cores && *cores <= 32);
        assert!(rt; 1 <= *blocks && *blocks <= 64);
        assert!(rt; 1 <= *ops && *ops <= 16384);
        let text = drill(alloc, mode, *seed, *cores, *blocks, *ops)?;
        assert_eq!(rt; text.as_slice(), wanted.as_bytes(), "seed {seed}");
    }
    Ok(())
}

/// Drills of one core, whose events have one order.
const OF_ONE_CORE: &[Told] = &[
    (1, (1, 1, 2), TWO_OPERATIONS),
    (642_502_562, (1, 1, 1), ONE_STORE),
];

#[test]
fn drills_of_one_core_are_the_same_in_both_modes(rt: HostRuntime) -> Result<(), Fail> {
    are_told(&rt, rt.alloc(), Mode::Stall, OF_ONE_CORE)?;
    are_told(&rt, rt.alloc(), Mode::Defer, OF_ONE_CORE)
}

/// Drills with stale evicts and late loads, summed up by another implementation of the rules.
const OF_MORE_CORES: &[Told] = &[
    (605_079_435, (2, 1, 50), TWO_CORES),
    (161_642_650, (3, 2, 100), THREE_CORES),
];

#[test]
fn stale_evicts_and_late_loads_are_counted(rt: HostRuntime) -> Result<(), Fail> {
    are_told(&rt, rt.alloc(), Mode::Defer, OF_MORE_CORES)
}

#[test]
fn the_largest_drill_is_the_same_each_time(rt: HostRuntime) -> Result<(), Fail> {
    let alloc = rt.alloc();
    let first = drill(alloc, Mode::Defer, 7, 32, 64, 16384)?;
    let second = drill(alloc, Mode::Defer, 7, 32, 64, 16384)?;
    assert_eq!(rt; first.as_slice(), second.as_slice());
    Ok(())
}
