use histories::History;
use pg_atomic::Atomic;
use pg_io::{MemorySink, MemorySource, read_all};
use pg_perm::{Access, Event, Fault, Left, Perm, ReqClass, Rule, Who};
use pg_shape::{DirCase, Protocol, shape};
use protogen_cli::{Status, protogen};
use shapes::Case;
use std::alloc::{AllocError, Global};
use std::fmt::Write;
use std::process::Abort;
use std::test::Fail;
use texts::{MESI, MI, MIGRATORY, MOESI, MOSI, MSI, VISIBLE};

mod histories;
mod reading;
mod shapes;
mod tables;
mod texts;

/// The most bytes that an input may have.
const MOST_BYTES: usize = 1_048_576;

fn strings(alloc: Global, words: &[&str]) -> Result<Vec<String>, AllocError> {
    let mut texts = Vec::new(alloc);
    for word in words {
        texts.push(String::from_str(alloc, word)?)?;
    }
    Ok(texts)
}

/// How a command of these words ends on this input, and what it writes where there is room for so many bytes.
fn run_into(
    alloc: Global,
    words: &[&str],
    input: Vec<u8>,
    room: u32,
) -> Result<(Status, Vec<u8>), AllocError> {
    let words = strings(alloc, words)?;
    let mut source = MemorySource::new(input, 65536, Vec::new(alloc));
    let mut sink = MemorySink::new(alloc, room, 4096, Vec::new(alloc))?;
    let status = protogen(alloc, &words, &mut source, &mut sink);
    Ok((status, sink.held().to_vec(alloc)?))
}

/// How a command of these words ends on this input, and what it writes, which is short.
fn run(alloc: Global, words: &[&str], input: Vec<u8>) -> Result<(Status, Vec<u8>), AllocError> {
    run_into(alloc, words, input, 4096)
}

/// How a check of this text ends, and what it writes.
fn check(alloc: Global, text: Vec<u8>) -> Result<(Status, Vec<u8>), AllocError> {
    run(alloc, &["check"], text)
}

/// How this script ends on the atomic machine of a text, and what it writes.
fn atomic(alloc: Global, text: &str, script: &str) -> Result<(Status, Vec<u8>), AllocError> {
    let mut input = text.as_bytes().to_vec(alloc)?;
    input.extend_from_slice(script.as_bytes())?;
    run(alloc, &["atomic"], input)
}

fn script_breaks(line: u32, rule: Rule) -> Status {
    Status::Script(Fault { line, rule })
}

fn breaks(line: u32, rule: Rule) -> Status {
    Status::Text(Fault { line, rule })
}

/// Numbers of lines, and what they are replaced by: none, one or more lines.
type Edits = &'static [(usize, &'static str)];

/// The text with these lines replaced, each of which it has.
fn edited(
    rt: &impl Abort,
    alloc: Global,
    text: &str,
    edits: &[(usize, &str)],
) -> Result<Vec<u8>, Fail> {
    let lines = text.split_inclusive('\n').count();
    for (number, _) in edits {
        assert!(rt; 0 < *number && *number <= lines, "{number}");
    }
    let mut result = Vec::new(alloc);
    for (line, number) in text.split_inclusive('\n').zip(1..100) {
        let line = match edits.iter().find(|edit| edit.0 == number) {
            Some(edit) => edit.1,
            None => line,
        };
        result.extend_from_slice(line.as_bytes())?;
    }
    Ok(result)
}

const NO_EDITS: Edits = &[];

/// MSI without a row for a load that is passed on to the owner.
const NO_SHARE: Edits = &[(25, "")];

/// MSI with an S that has no permission, and a cache line between its core lines.
const LATE_CACHE: Edits = &[
    (3, "cache S shared none\n"),
    (16, "core I load GetS Data S\ncache X owner read\n"),
];

#[test]
fn a_text_is_judged(rt: HostRuntime) -> Result<(), Fail> {
    let alloc = rt.alloc();
    for (text, edits, wanted, line) in [
        (MSI, NO_EDITS, Status::Done, "ok\n"),
        ("", NO_EDITS, breaks(1, Rule::F6), "line 1 rule F6\n"),
        (MSI, LATE_CACHE, breaks(17, Rule::F2), "line 17 rule F2\n"),
        (MSI, NO_SHARE, breaks(4, Rule::S13), "line 4 rule S13\n"),
    ] {
        let (status, written) = check(alloc, edited(&rt, alloc, text, edits)?)?;
        assert_eq!(rt; status, wanted, "{line:?}");
        assert_eq!(rt; written.as_slice(), line.as_bytes(), "{line:?}");
    }
    Ok(())
}

#[test]
fn a_text_that_is_cut_lacks_its_end(rt: HostRuntime) -> Result<(), Fail> {
    let alloc = rt.alloc();
    let mut text = Vec::new(alloc);
    for (line, missing) in MSI.split_inclusive('\n').zip(1..38) {
        let (status, _) = check(alloc, text.to_vec(alloc)?)?;
        assert_eq!(rt; status, breaks(missing, Rule::F6));
        text.extend_from_slice(line.as_bytes())?;
    }
    Ok(())
}

#[test]
fn other_words_read_nothing(rt: HostRuntime) -> Result<(), Fail> {
    let alloc = rt.alloc();
    for words in [
        [].as_slice(),
        &["chek"],
        &["check", "check"],
        &["--help"],
        &["compile", "--mode", "slow"],
    ] {
        let words = strings(alloc, words)?;
        let mut source = MemorySource::new(MSI.as_bytes().to_vec(alloc)?, 100, Vec::new(alloc));
        let mut sink = MemorySink::new(alloc, 4096, 4096, Vec::new(alloc))?;
        let status = protogen(alloc, &words, &mut source, &mut sink);
        assert_eq!(rt; status, Status::Usage, "{words:?}");
        assert_eq!(rt; sink.held(), b"usage\n".as_slice(), "{words:?}");
        let left = read_all(alloc, &mut source, 4096)?;
        assert_eq!(rt; left.as_slice(), MSI.as_bytes(), "{words:?}");
    }
    Ok(())
}

#[test]
fn a_fault_is_told(rt: HostRuntime) -> Result<(), Fail> {
    let alloc = rt.alloc();
    let words = strings(alloc, &["check"])?;
    for (failing_read, failing_write, wanted, held) in [
        (2, 0, Status::ReadFault, ""),
        (0, 2, Status::WriteFault, "ok"),
    ] {
        let fails = vec![in alloc; failing_read]?;
        let mut source = MemorySource::new(MSI.as_bytes().to_vec(alloc)?, 100, fails);
        let mut sink = MemorySink::new(alloc, 4096, 2, vec![in alloc; failing_write]?)?;
        let status = protogen(alloc, &words, &mut source, &mut sink);
        assert_eq!(rt; status, wanted);
        assert_eq!(rt; sink.held(), held.as_bytes(), "{wanted:?}");
    }
    Ok(())
}

#[test]
fn the_longest_input_is_judged(rt: HostRuntime) -> Result<(), Fail> {
    let alloc = rt.alloc();
    for (text, len, wanted, line) in [
        (MSI, MOST_BYTES, Status::Done, "ok\n"),
        (MSI, MOST_BYTES + 1, Status::TooLong, "too long\n"),
        (
            "protocol MSI\n",
            MOST_BYTES,
            breaks(2, Rule::F1),
            "line 2 rule F1\n",
        ),
    ] {
        let mut text = text.as_bytes().to_vec(alloc)?;
        text.resize(len, b'\n')?;
        let (status, written) = check(alloc, text)?;
        assert_eq!(rt; status, wanted, "{len}");
        assert_eq!(rt; written.as_slice(), line.as_bytes(), "{len}");
    }
    Ok(())
}

/// So many cache lines of one kind, and nothing else.
fn caches(alloc: Global, count: u32) -> Result<Vec<u8>, AllocError> {
    let mut text = String::from_str(alloc, "protocol P\n")?;
    for k in 1..=count {
        writeln!(text, "cache C{k} owner read")?;
    }
    text.push_str("end\n")?;
    Ok(text.into_bytes())
}

/// MI with so many words in the line of its directory state M.
fn long_line(rt: &impl Abort, alloc: Global, words: u32) -> Result<Vec<u8>, Fail> {
    let mut line = String::from_str(alloc, "dir M owned")?;
    for _ in 3..words {
        line.push_str(" M")?;
    }
    line.push_str("\n")?;
    edited(rt, alloc, MI, &[(5, line.as_str())])
}

#[test]
fn texts_at_the_limits_are_judged(rt: HostRuntime) -> Result<(), Fail> {
    let alloc = rt.alloc();
    for (text, wanted) in [
        (caches(alloc, 16)?, breaks(1, Rule::S2)),
        (caches(alloc, 17)?, breaks(18, Rule::F5)),
        (long_line(&rt, alloc, 80)?, breaks(5, Rule::S4)),
        (long_line(&rt, alloc, 81)?, breaks(5, Rule::F5)),
    ] {
        let (status, _) = check(alloc, text)?;
        assert_eq!(rt; status, wanted);
    }
    Ok(())
}

#[test]
fn each_protocol_is_one(rt: HostRuntime) -> Result<(), Fail> {
    let alloc = rt.alloc();
    for text in [MI, MSI, MESI, MOSI, MOESI, MIGRATORY, VISIBLE] {
        let (status, _) = check(alloc, text.as_bytes().to_vec(alloc)?)?;
        assert_eq!(rt; status, Status::Done, "{text}");
    }
    Ok(())
}

/// Puts last, for each case that has another first fault, its name and how the check ended.
fn put_misjudged(
    rt: &impl Abort,
    alloc: Global,
    misjudged: &mut Vec<String>,
    cases: &[Case],
) -> Result<(), Fail> {
    for (name, base, edits, (line, rule)) in cases {
        let (status, _) = check(alloc, edited(rt, alloc, base.text(), edits)?)?;
        if status != breaks(*line, *rule) {
            misjudged.push(format!(in alloc; "{name}: {status:?}")?)?;
        }
    }
    Ok(())
}

#[test]
fn each_rule_of_the_shape_is_told(rt: HostRuntime) -> Result<(), Fail> {
    let alloc = rt.alloc();
    let mut misjudged = Vec::new(alloc);
    for cases in [
        shapes::CASES_1,
        shapes::CASES_2,
        shapes::CASES_3,
        shapes::CASES_4,
        shapes::CASES_5,
        shapes::CASES_6,
        shapes::CASES_7,
        shapes::CASES_8,
        shapes::CASES_9,
        shapes::CASES_10,
        shapes::CASES_11,
        shapes::CASES_12,
        shapes::CASES_13,
        shapes::CASES_14,
        shapes::CASES_15,
        shapes::CASES_16,
        shapes::CASES_17,
        shapes::CASES_18,
    ] {
        put_misjudged(&rt, alloc, &mut misjudged, cases)?;
    }
    assert!(rt; misjudged.is_empty(), "{misjudged:?}");
    Ok(())
}

#[test]
fn other_protocols_are_sound(rt: HostRuntime) -> Result<(), Fail> {
    let alloc = rt.alloc();
    for (name, base, edits) in shapes::SOUND {
        let (status, _) = check(alloc, edited(&rt, alloc, base.text(), edits)?)?;
        assert_eq!(rt; status, Status::Done, "{name}");
    }
    Ok(())
}

/// MSI as a protocol.
fn msi(rt: &impl Abort, alloc: Global) -> Result<Protocol, Fail> {
    let text = MSI.as_bytes().to_vec(alloc)?;
    assert!(rt; text.len() <= MOST_BYTES);
    let (draft, place) = pg_text::read(alloc, &text)?;
    assert_eq!(rt; place as usize, text.len());
    Ok(shape(draft)?)
}

#[test]
fn a_protocol_tells_its_states(rt: HostRuntime) -> Result<(), Fail> {
    let protocol = msi(&rt, rt.alloc())?;
    assert_eq!(rt; protocol.draft().caches.len(), 3);
    assert_eq!(rt; protocol.out(), 0);
    assert_eq!(rt; protocol.shared(), Some(1));
    assert_eq!(rt; protocol.perm(2), Perm::Write);
    assert_eq!(rt; protocol.core_row(2, Event::Store).line, 22);
    Ok(())
}

#[test]
fn a_protocol_tells_its_take_rows(rt: HostRuntime) -> Result<(), Fail> {
    let protocol = msi(&rt, rt.alloc())?;
    for (state, forward, line) in [
        (1, 4, Some(24)),
        (2, 5, Some(25)),
        (1, 5, None),
        (9, 9, None),
    ] {
        let row = protocol.take_row(state, forward);
        assert_eq!(rt; row.map(|row| row.line), line);
        assert_eq!(rt; protocol.due(state, forward), line.is_some());
    }
    Ok(())
}

#[test]
fn a_protocol_tells_its_rows(rt: HostRuntime) -> Result<(), Fail> {
    let protocol = msi(&rt, rt.alloc())?;
    for (dir, at, line) in [
        (0, DirCase::Ask(ReqClass::Read, Who::Other), Some(27)),
        (1, DirCase::Ask(ReqClass::Write, Who::Sharer), Some(31)),
        (2, DirCase::Evict(Who::Owner, Left::Last), Some(36)),
        (2, DirCase::Evict(Who::Owner, Left::More), None),
        (9, DirCase::Ask(ReqClass::Read, Who::Other), None),
    ] {
        let row = protocol.row(dir, at);
        assert_eq!(rt; row.map(|row| row.line), line);
    }
    Ok(())
}

#[test]
fn a_script_is_run_or_judged(rt: HostRuntime) -> Result<(), Fail> {
    let alloc = rt.alloc();
    for (script, wanted, written) in [
        (
            "cores 2\nblocks 1\nop 0 store 0 5\nop 1 load 0\ndone\n",
            Status::Done,
            "block 0\ntxn 1 c0 store\nacc 1 c0 store 5\ntxn 2 c1 load\nacc 2 c1 load 5\nend\n",
        ),
        ("cores 1\nblocks 1\ndone\n", Status::Done, "block 0\nend\n"),
        (
            "cores 32\nblocks 1\nop 32 load 0\ndone\n",
            script_breaks(3, Rule::C2),
            "script line 3 rule C2\n",
        ),
        ("", script_breaks(1, Rule::C4), "script line 1 rule C4\n"),
        (
            "cores 0\nblocks 1\ndone\n",
            script_breaks(1, Rule::C2),
            "script line 1 rule C2\n",
        ),
        (
            "cores 1\nblocks 1\ndone\nx",
            script_breaks(4, Rule::C5),
            "script line 4 rule C5\n",
        ),
    ] {
        let (status, bytes) = atomic(alloc, MSI, script)?;
        assert_eq!(rt; status, wanted, "{script}");
        assert_eq!(rt; bytes.as_slice(), written.as_bytes(), "{script}");
    }
    Ok(())
}

/// Words, a script below MSI's text, how the command ends, and what it writes.
const RUNS: &[(&[&str], &str, Status, &str)] = &[
    (
        &["run", "--mode", "stall", "--seed", "0"],
        "cores 2\nblocks 1\nop 0 store 0 5\nop 1 load 0\ndone\n",
        Status::Done,
        "block 0\ntxn 1 c0 store\nacc 1 c0 store 5\ntxn 2 c1 load\nacc 2 c1 load 5\nend\n",
    ),
    (
        &["run", "--mode", "defer", "--seed", "1"],
        "cores 1\nblocks 2\nop 0 store 1 3\ndone\n",
        Status::Done,
        "block 0\nblock 1\ntxn 1 c0 store\nacc 1 c0 store 3\nend\n",
    ),
    (
        &["run", "--mode", "defer", "--seed", "0"],
        "cores 32\nblocks 1\nop 32 load 0\ndone\n",
        Status::Script(Fault {
            line: 3,
            rule: Rule::C2,
        }),
        "script line 3 rule C2\n",
    ),
    (
        &["run", "--mode", "slow"],
        "cores 1\nblocks 1\ndone\n",
        Status::Usage,
        "usage\n",
    ),
];

#[test]
fn a_script_runs_on_the_controllers(rt: HostRuntime) -> Result<(), Fail> {
    let alloc = rt.alloc();
    for (words, script, wanted, written) in RUNS {
        let mut input = MSI.as_bytes().to_vec(alloc)?;
        input.extend_from_slice(script.as_bytes())?;
        let (status, bytes) = run(alloc, words, input)?;
        assert_eq!(rt; status, *wanted, "{script}");
        assert_eq!(rt; bytes.as_slice(), written.as_bytes(), "{script}");
    }
    Ok(())
}

/// MSI with a script of 16,384 loads over 32 cores and 64 blocks.
fn largest_script(alloc: Global) -> Result<Vec<u8>, AllocError> {
    let mut text = String::from_str(alloc, MSI)?;
    text.push_str("cores 32\nblocks 64\n")?;
    for k in 0..16384u32 {
        writeln!(text, "op {} load {}", k % 32, k % 64)?;
    }
    text.push_str("done\n")?;
    Ok(text.into_bytes())
}

/// Puts what it makes of a block: one core loads 256 times, and only the first one is a miss.
fn put_loads(text: &mut String, block: u32) -> Result<(), AllocError> {
    let core = block % 32;
    writeln!(text, "block {block}")?;
    writeln!(text, "txn 1 c{core} load")?;
    for _ in 0..256u32 {
        writeln!(text, "acc 1 c{core} load 0")?;
    }
    Ok(())
}

#[test]
fn the_largest_script_is_run(rt: HostRuntime) -> Result<(), Fail> {
    let alloc = rt.alloc();
    let words = ["run", "--mode", "defer", "--seed", "7"];
    let (status, written) = run_into(alloc, words.as_slice(), largest_script(alloc)?, 1_000_000)?;
    assert_eq!(rt; status, Status::Done);
    let mut wanted = String::new(alloc);
    for block in 0..64u32 {
        put_loads(&mut wanted, block)?;
    }
    wanted.push_str("end\n")?;
    assert_eq!(rt; written.as_slice(), wanted.as_bytes());
    Ok(())
}

#[test]
fn a_text_comes_before_its_script(rt: HostRuntime) -> Result<(), Fail> {
    let alloc = rt.alloc();
    let (status, _) = atomic(alloc, "protocol P\n\nend\n", "cores 0\n")?;
    assert_eq!(rt; status, breaks(2, Rule::F1));
    let (status, _) = atomic(alloc, "protocol P\nend\n", "cores 0\n")?;
    assert_eq!(rt; status, breaks(1, Rule::S2));
    Ok(())
}

/// Checks that each case has its histories.
fn have_histories(rt: &impl Abort, alloc: Global, cases: &[History]) -> Result<(), Fail> {
    for (name, base, script, wanted) in cases {
        let (status, written) = atomic(alloc, base.text(), script)?;
        assert_eq!(rt; status, Status::Done, "{name}");
        assert_eq!(rt; written.as_slice(), wanted.as_bytes(), "{name}");
    }
    Ok(())
}

#[test]
fn histories_are_those_worked_by_hand(rt: HostRuntime) -> Result<(), Fail> {
    let alloc = rt.alloc();
    for cases in [
        histories::HISTORIES_1,
        histories::HISTORIES_2,
        histories::HISTORIES_3,
        histories::HISTORIES_4,
        histories::HISTORIES_5,
        histories::HISTORIES_6,
    ] {
        have_histories(&rt, alloc, cases)?;
    }
    Ok(())
}

/// The machine of MSI with as many cores as there may be: a store, and a load that is passed on to the writer.
#[test]
fn a_machine_makes_its_steps(rt: HostRuntime) -> Result<(), Fail> {
    let protocol = msi(&rt, rt.alloc())?;
    let mut machine = Atomic::make(rt.alloc(), &protocol, 64)?;
    assert!(rt; !machine.may(&protocol, 63, Event::Store));
    let stored = machine.txn(&protocol, 63, Event::Store);
    assert_eq!(rt; (stored.state, stored.dir), (2, 2));
    assert_eq!(rt; machine.access(&protocol, 63, Access::Store(5)), 5);
    assert!(rt; !machine.may(&protocol, 0, Event::Load));
    let loaded = machine.txn(&protocol, 0, Event::Load);
    assert_eq!(rt; (loaded.state, loaded.dir), (1, 1));
    assert_eq!(rt; machine.access(&protocol, 0, Access::Load), 5);
    assert!(rt; machine.may(&protocol, 63, Event::Evict));
    Ok(())
}

#[test]
fn tables_are_those_worked_by_hand(rt: HostRuntime) -> Result<(), Fail> {
    let alloc = rt.alloc();
    for (base, mode, wanted) in tables::WORKED {
        let input = base.text().as_bytes().to_vec(alloc)?;
        let (status, written) = run(alloc, &["compile", "--mode", mode], input)?;
        assert_eq!(rt; status, Status::Done, "{wanted}");
        assert_eq!(rt; written.as_slice(), wanted.as_bytes(), "{wanted}");
    }
    Ok(())
}

#[test]
fn a_table_that_is_cut_is_a_write_fault(rt: HostRuntime) -> Result<(), Fail> {
    let alloc = rt.alloc();
    let words = strings(alloc, &["compile", "--mode", "stall"])?;
    let mut source = MemorySource::new(MSI.as_bytes().to_vec(alloc)?, 100, Vec::new(alloc));
    let mut fails = Vec::new(alloc);
    fails.push(2)?;
    let mut sink = MemorySink::new(alloc, 4096, 10, fails)?;
    let status = protogen(alloc, &words, &mut source, &mut sink);
    assert_eq!(rt; status, Status::WriteFault);
    assert_eq!(rt; sink.held(), b"table MSI ".as_slice());
    Ok(())
}
