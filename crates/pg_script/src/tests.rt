use super::*;
use pg_perm::Op;
use std::alloc::Global;
use std::process::Abort;
use std::test::Fail;

/// A script, and the line and the rule of its first fault.
type Judged = (&'static str, (u32, &'static str));

/// The first lines of a script.
const HEAD: &str = "cores 2\nblocks 3\n";

/// Two operations of two cores on one block.
const TWO_CORES: &str = "cores 2\nblocks 1\nop 0 store 0 5\nop 1 load 0\ndone\n";

/// Operations of two cores on two blocks, in turn.
const MIXED: &str = "cores 2
blocks 2
op 0 store 1 1
op 0 store 0 2
op 1 store 1 3
op 0 load 1
op 1 load 0
op 0 evict 0
op 0 store 1 4294967295
done
";

/// Scripts, judged in their first two lines or as a whole.
const STARTS: &[Judged] = &[
    ("", (1, "C4")),
    ("\n", (1, "C1")),
    ("cores 1", (2, "C4")),
    ("cores 1\n", (2, "C4")),
    ("cores 1\nblocks 1", (3, "C4")),
    ("cores 1\nblocks 1\n", (3, "C4")),
    ("cores 1\nblocks 1\ndone", (0, "ok")),
    ("cores 1\nblocks 1\ndone\n", (0, "ok")),
    ("cores 32\nblocks 64\nop 31 evict 63\ndone\n", (0, "ok")),
    ("cores 0\nblocks 1\ndone\n", (1, "C2")),
    ("cores 33\nblocks 1\ndone\n", (1, "C2")),
    ("cores 33\nblocks 65\ndone\n", (1, "C2")),
    ("cores 1\nblocks 0\ndone\n", (2, "C2")),
    ("cores 1\nblocks 65\ndone\n", (2, "C2")),
    ("cores 0\nblocks\ndone\n", (1, "C2")),
    ("cores 4294967297\nblocks 1\ndone\n", (1, "C2")),
    ("cores 18446744073709551617\nblocks 1\ndone\n", (1, "C2")),
    ("cores 99999999999999999999\nblocks 1\ndone\n", (1, "C2")),
    ("cores 100000000000000000000\nblocks 1\ndone\n", (1, "C1")),
    (
        "cores 340282366920938463463374607431768211457\nblocks 1\ndone\n",
        (1, "C1"),
    ),
    ("cores 1\nblocks 18446744073709551617\ndone\n", (2, "C2")),
    ("cores 00\nblocks 1\ndone\n", (1, "C1")),
    ("cores 01\nblocks 1\ndone\n", (1, "C1")),
    ("cores 000000000000000000001\nblocks 1\ndone\n", (1, "C1")),
    ("cores 1\nblocks 064\ndone\n", (2, "C1")),
    ("cores -1\nblocks 1\ndone\n", (1, "C1")),
    ("cores +1\nblocks 1\ndone\n", (1, "C1")),
    ("cores 1.0\nblocks 1\ndone\n", (1, "C1")),
    ("cores 0x1\nblocks 1\ndone\n", (1, "C1")),
    ("cores a\nblocks 1\ndone\n", (1, "C1")),
    ("cores\nblocks 1\ndone\n", (1, "C1")),
    ("cores \nblocks 1\ndone\n", (1, "C1")),
    ("cores 1 1\nblocks 1\ndone\n", (1, "C1")),
    ("cores 1 \nblocks 1\ndone\n", (1, "C1")),
    ("cores  1\nblocks 1\ndone\n", (1, "C1")),
    (" cores 1\nblocks 1\ndone\n", (1, "C1")),
    ("cores\t1\nblocks 1\ndone\n", (1, "C1")),
    ("cores 1\r\nblocks 1\r\ndone\r\n", (1, "C1")),
    ("Cores 1\nblocks 1\ndone\n", (1, "C1")),
    ("core 1\nblocks 1\ndone\n", (1, "C1")),
    ("blocks 1\ncores 1\ndone\n", (1, "C1")),
    ("\ncores 1\nblocks 1\ndone\n", (1, "C1")),
    ("done\n", (1, "C1")),
    ("op 0 load 0\n", (1, "C1")),
    ("cores 1\ndone\n", (2, "C1")),
    ("cores 1\n\nblocks 1\ndone\n", (2, "C1")),
    ("cores 1\ncores 1\nblocks 1\ndone\n", (2, "C1")),
    ("cores 1\nop 0 load 0\nblocks 1\ndone\n", (2, "C1")),
    ("cores 1\nBLOCKS 1\ndone\n", (2, "C1")),
    ("cores 1\nblocks 1 1\ndone\n", (2, "C1")),
];

/// What stands after `HEAD`.
const OPERATIONS: &[Judged] = &[
    ("done\n", (0, "ok")),
    (
        "op 1 load 2\nop 0 store 0 0\nop 1 evict 2\ndone\n",
        (0, "ok"),
    ),
    ("op 0 store 0 4294967295\ndone\n", (0, "ok")),
    ("op 0 store 0 4294967296\ndone\n", (3, "C2")),
    ("op 0 store 0 18446744073709551616\ndone\n", (3, "C2")),
    ("op 0 store 0 18446744073709551621\ndone\n", (3, "C2")),
    ("op 0 store 0 99999999999999999999\ndone\n", (3, "C2")),
    ("op 0 store 0 100000000000000000000\ndone\n", (3, "C1")),
    ("op 0 store 0 000000000000000000005\ndone\n", (3, "C1")),
    ("op 0 store 0 00\ndone\n", (3, "C1")),
    ("op 0 store 0 05\ndone\n", (3, "C1")),
    ("op 0 store 0 -1\ndone\n", (3, "C1")),
    ("op 0 store 0 +1\ndone\n", (3, "C1")),
    ("op 0 store 0 \ndone\n", (3, "C1")),
    ("op 2 load 0\ndone\n", (3, "C2")),
    ("op 0 load 3\ndone\n", (3, "C2")),
    ("op 0 evict 3\ndone\n", (3, "C2")),
    ("op 2 store 0 5\ndone\n", (3, "C2")),
    ("op 4294967296 load 0\ndone\n", (3, "C2")),
    ("op 0 load 4294967296\ndone\n", (3, "C2")),
    ("op 18446744073709551616 load 0\ndone\n", (3, "C2")),
    ("op 0 load 18446744073709551616\ndone\n", (3, "C2")),
    ("op 100000000000000000000 load 0\ndone\n", (3, "C1")),
    ("op 0 evict 100000000000000000000\ndone\n", (3, "C1")),
    ("op 00 load 0\ndone\n", (3, "C1")),
    ("op 0 load 01\ndone\n", (3, "C1")),
    ("op -1 load 0\ndone\n", (3, "C1")),
    ("op 0 load +0\ndone\n", (3, "C1")),
    ("op\ndone\n", (3, "C1")),
    ("op 0\ndone\n", (3, "C1")),
    ("op 0 load\ndone\n", (3, "C1")),
    ("op 2 load\ndone\n", (3, "C1")),
    ("op 0 load 0 5\ndone\n", (3, "C1")),
    ("op 0 evict 0 5\ndone\n", (3, "C1")),
    ("op 0 store 0\ndone\n", (3, "C1")),
    ("op 0 store 0 5 5\ndone\n", (3, "C1")),
    ("op 0 keep 0\ndone\n", (3, "C1")),
    ("op load 0 0\ndone\n", (3, "C1")),
    ("op 0 Load 0\ndone\n", (3, "C1")),
    ("Op 0 load 0\ndone\n", (3, "C1")),
    ("op  0 load 0\ndone\n", (3, "C1")),
    ("op 0  load 0\ndone\n", (3, "C1")),
    ("op 0 load 0 \ndone\n", (3, "C1")),
    (" op 0 load 0\ndone\n", (3, "C1")),
    ("\ndone\n", (3, "C1")),
    ("cores 2\ndone\n", (3, "C1")),
    ("blocks 3\ndone\n", (3, "C1")),
    ("op 0 load 0\n\ndone\n", (4, "C1")),
    ("op 2 load 0\nop 0 load\ndone\n", (3, "C2")),
    ("op 0 load 0\nop 0 load 3\nop 0 load\n", (4, "C2")),
    ("op 0 load 0\n", (4, "C4")),
    ("op 0 load 0", (4, "C4")),
    ("Done\n", (3, "C1")),
    ("done \n", (3, "C1")),
    (" done\n", (3, "C1")),
    ("done done\n", (3, "C1")),
    ("donex", (3, "C1")),
    ("done", (0, "ok")),
    ("done\nx", (4, "C5")),
    ("done\n\n", (4, "C5")),
    ("done\n\n\n\n", (4, "C5")),
    ("done\ndone\n", (4, "C5")),
    ("done\nop 2 load 0\n", (4, "C5")),
    ("op 0 load 0\ndone\nop 1 load 1\ndone\n", (5, "C5")),
];

/// What stands after 16,384 operations of one core on one block.
const LAST_LINES: &[Judged] = &[
    ("done\n", (0, "ok")),
    ("op 0 load 0\ndone\n", (16387, "C3")),
    ("op 1 load 0\ndone\n", (16387, "C2")),
    ("op 0 load\ndone\n", (16387, "C1")),
    ("done\nop 0 load 0\n", (16388, "C5")),
    ("", (16387, "C4")),
];

fn answer(rt: &impl Abort, alloc: Global, text: &[u8]) -> (u32, &'static str) {
    assert!(rt; text.len() < 1_000_000);
    match read(alloc, text) {
        Ok(_) => (0, "ok"),
        Err(ScriptError::Fault(fault)) => (fault.line, fault.rule.name()),
        Err(ScriptError::Memory) => (0, "memory"),
    }
}

#[test]
fn the_first_fault_is_answered(rt: HostRuntime) -> Result<(), Fail> {
    let alloc = rt.alloc();
    for (text, wanted) in STARTS {
        let got = answer(&rt, alloc, text.as_bytes());
        assert_eq!(rt; got, *wanted, "{text:?}");
    }
    for (tail, wanted) in OPERATIONS {
        let mut text = String::from_str(alloc, HEAD)?;
        text.push_str(tail)?;
        let got = answer(&rt, alloc, text.as_str().as_bytes());
        assert_eq!(rt; got, *wanted, "{tail:?}");
    }
    Ok(())
}

#[test]
fn there_are_at_most_16384_operations(rt: HostRuntime) -> Result<(), Fail> {
    let alloc = rt.alloc();
    let mut lines = String::from_str(alloc, "cores 1\nblocks 1\n")?;
    for _ in 0..16384 {
        lines.push_str("op 0 load 0\n")?;
    }
    for (tail, wanted) in LAST_LINES {
        let mut text = String::from_str(alloc, lines.as_str())?;
        text.push_str(tail)?;
        let got = answer(&rt, alloc, text.as_str().as_bytes());
        assert_eq!(rt; got, *wanted, "{tail:?}");
    }
    Ok(())
}

/// The script of a text that is one.
fn script_of(rt: &impl Abort, alloc: Global, text: &str) -> Result<Script, Fail> {
    assert!(rt; text.len() < 1_000);
    Ok(read(alloc, text.as_bytes())?)
}

#[test]
fn what_is_read_is_printed(rt: HostRuntime) -> Result<(), Fail> {
    let alloc = rt.alloc();
    for (text, wanted) in [
        (TWO_CORES, TWO_CORES),
        (MIXED, MIXED),
        ("cores 1\nblocks 1\ndone", "cores 1\nblocks 1\ndone\n"),
    ] {
        let script = script_of(&rt, alloc, text)?;
        let printed = print(alloc, &script)?;
        assert_eq!(rt; printed.as_slice(), wanted.as_bytes());
        let again = read(alloc, &printed)?;
        assert_eq!(rt; print(alloc, &again)?.as_slice(), wanted.as_bytes());
    }
    Ok(())
}

#[test]
fn operations_of_a_block_stand_in_line_order(rt: HostRuntime) -> Result<(), Fail> {
    let alloc = rt.alloc();
    let script = script_of(&rt, alloc, TWO_CORES)?;
    assert_eq!(rt; script.cores(), 2);
    assert_eq!(rt; script.blocks(), 1);
    assert_eq!(rt; script.ops().len(), 2);
    let ops = on_block(alloc, &script, 0, 0)?;
    assert_eq!(rt; ops.as_slice(), [Op::Store(5)].as_slice());
    let script = script_of(&rt, alloc, MIXED)?;
    let here = [Op::Store(1), Op::Load, Op::Store(4294967295)];
    for (core, block, wanted) in [
        (0, 0, [Op::Store(2), Op::Evict].as_slice()),
        (0, 1, here.as_slice()),
        (1, 0, [Op::Load].as_slice()),
        (1, 1, [Op::Store(3)].as_slice()),
        (2, 0, [].as_slice()),
        (0, 2, [].as_slice()),
    ] {
        let ops = on_block(alloc, &script, core, block)?;
        assert_eq!(rt; ops.as_slice(), wanted, "core {core}, block {block}");
    }
    Ok(())
}

/// A seed, how many cores, blocks and operations, and the text of the script.
type Drawn = (u64, (u32, u32, u32), &'static str);

const DRAWN: &[Drawn] = &[
    (
        1,
        (1, 1, 2),
        "cores 1\nblocks 1\nop 0 store 0 1\nop 0 load 0\ndone\n",
    ),
    (
        0,
        (4, 8, 5),
        "cores 4\nblocks 8\nop 3 load 0\nop 0 load 5\nop 0 load 7\nop 3 load 7\nop 2 store 5 5\ndone\n",
    ),
    (
        18446744073709551615,
        (3, 5, 5),
        "cores 3\nblocks 5\nop 1 store 3 1\nop 2 load 4\nop 0 load 2\nop 2 load 3\nop 2 store 3 5\ndone\n",
    ),
    (
        7,
        (32, 64, 5),
        "cores 32\nblocks 64\nop 30 load 63\nop 17 load 41\nop 8 load 20\nop 22 load 3\nop 0 store 48 5\ndone\n",
    ),
];

#[test]
fn drills_are_drawn_from_their_seed(rt: HostRuntime) -> Result<(), Fail> {
    let alloc = rt.alloc();
    for (seed, (cores, blocks, ops), wanted) in DRAWN {
        assert!(rt; 1 <= *cores && *cores <= 32);
        assert!(rt; 1 <= *blocks && *blocks <= 64);
        assert!(rt; 1 <= *ops && *ops <= 16384);
        let script = drill_script(alloc, *seed, *cores, *blocks, *ops)?;
        let text = print(alloc, &script)?;
        assert_eq!(rt; text.as_slice(), wanted.as_bytes(), "seed {seed}");
    }
    Ok(())
}

#[test]
fn the_largest_drill_is_drawn(rt: HostRuntime) -> Result<(), Fail> {
    let script = drill_script(rt.alloc(), 7, 32, 64, 16384)?;
    assert_eq!(rt; script.ops().len(), 16384);
    Ok(())
}
