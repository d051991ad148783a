use super::*;
use pg_perm::Mode;
use std::alloc::{AllocError, Global};
use std::test::Fail;

fn words_of(alloc: Global, words: &[&str]) -> Result<Vec<String>, AllocError> {
    let mut texts = Vec::new(alloc);
    for word in words {
        texts.push(String::from_str(alloc, word)?)?;
    }
    Ok(texts)
}

/// Words, and what they ask for.
const TAKEN: &[(&[&str], Command)] = &[
    (&["check"], Command::Text(Task::Check)),
    (&["atomic"], Command::Text(Task::Run(Machine::Atomic))),
    (&["compile"], Command::Text(Task::Compile(Mode::Defer))),
    (
        &["compile", "--mode", "stall"],
        Command::Text(Task::Compile(Mode::Stall)),
    ),
    (
        &["run", "--seed=7", "--mode", "stall"],
        Command::Text(Task::Run(Machine::Controllers(Mode::Stall, 7))),
    ),
    (
        &["drill"],
        Command::Drill(Drill {
            mode: Mode::Defer,
            seed: 0,
            cores: 4,
            blocks: 8,
            ops: 1000,
        }),
    ),
    (
        &["drill", "--ops=16384", "--blocks", "64", "--cores=32"],
        Command::Drill(Drill {
            mode: Mode::Defer,
            seed: 0,
            cores: 32,
            blocks: 64,
            ops: 16384,
        }),
    ),
];

#[test]
fn words_that_are_taken_are_read(rt: HostRuntime) -> Result<(), Fail> {
    let alloc = rt.alloc();
    for (words, wanted) in TAKEN {
        let texts = words_of(alloc, words)?;
        assert!(rt; taken(&texts), "{words:?}");
        assert_eq!(rt; command_of(alloc, &texts)?, Some(*wanted), "{words:?}");
    }
    Ok(())
}

/// Words that are none of a command.
const REFUSED: &[&[&str]] = &[
    &[],
    &["Check"],
    &["check", "--mode", "stall"],
    &["run", "--seed", "1", "--seed", "1"],
    &["run", "--", "--seed", "1"],
    &["run", "--seed", "01"],
    &["drill", "--cores", "33"],
    &["drill", "--help"],
];

#[test]
fn other_words_are_not_taken(rt: HostRuntime) -> Result<(), Fail> {
    let alloc = rt.alloc();
    for words in REFUSED {
        let texts = words_of(alloc, words)?;
        assert!(rt; !taken(&texts), "{words:?}");
        assert_eq!(rt; command_of(alloc, &texts)?, None, "{words:?}");
    }
    Ok(())
}
