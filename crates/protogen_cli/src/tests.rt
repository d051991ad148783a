use super::*;
use pg_perm::{Fault, Rule};
use std::test::Fail;

/// Words, and whether they are those of a command.
const WORDS: &[(&[&str], bool)] = &[
    (&["check"], true),
    (&["atomic"], true),
    (&["compile", "--mode", "stall"], true),
    (&["compile", "--mode", "defer"], true),
    (&["compile"], false),
    (&["compile", "--mode"], false),
    (&["compile", "--mode", "slow"], false),
    (&["compile", "--mod", "stall"], false),
    (&["compile", "stall", "--mode"], false),
    (&["compile", "--mode", "stall", "stall"], false),
    (&["check", "--mode", "stall"], false),
    (&["atomic", "check"], false),
    (&["Atomic"], false),
    (&[], false),
    (&[""], false),
    (&["chek"], false),
    (&["Check"], false),
    (&["check "], false),
    (&["check", "check"], false),
    (&["check", ""], false),
    (&["--help"], false),
    (&["run", "--mode", "stall", "--seed", "0"], true),
    (
        &["run", "--mode", "defer", "--seed", "18446744073709551615"],
        true,
    ),
    (
        &["run", "--mode", "defer", "--seed", "18446744073709551616"],
        false,
    ),
    (
        &["run", "--mode", "defer", "--seed", "99999999999999999999"],
        false,
    ),
    (&["run", "--mode", "defer", "--seed", "01"], false),
    (&["run", "--mode", "defer", "--seed", "-1"], false),
    (&["run", "--mode", "defer", "--seed", ""], false),
    (&["run", "--mode", "slow", "--seed", "0"], false),
    (&["run", "--seed", "0", "--mode", "defer"], false),
    (&["run", "--mode", "defer", "--seed"], false),
    (&["run", "--mode", "defer"], false),
    (&["run"], false),
    (&["atomic", "--mode", "defer", "--seed", "0"], false),
    (&["run", "--mode", "defer", "--seed", "0", "0"], false),
];

#[test]
fn the_words_of_commands_are_taken(rt: HostRuntime) -> Result<(), Fail> {
    let alloc = rt.alloc();
    for (words, wanted) in WORDS {
        let mut texts = Vec::new(alloc);
        for word in *words {
            texts.push(String::from_str(alloc, word)?)?;
        }
        assert_eq!(rt; taken(&texts), *wanted, "{words:?}");
    }
    Ok(())
}

#[test]
fn each_status_has_its_code(rt: HostRuntime) {
    let fault = Fault {
        line: 5,
        rule: Rule::F1,
    };
    for (status, wanted) in [
        (Status::Done, 0),
        (Status::Text(fault), 1),
        (Status::Usage, 2),
        (Status::ReadFault, 3),
        (Status::WriteFault, 4),
        (Status::Memory, 5),
        (Status::TooLong, 6),
        (Status::Script(fault), 7),
    ] {
        assert_eq!(rt; status.code(), wanted, "{status:?}");
    }
}
