use super::*;
use std::test::Fail;

#[test]
fn lines_and_words_are_cut(rt: HostRuntime) -> Result<(), Fail> {
    for (bytes, wanted) in [
        (
            b"a bc\nd\n".as_slice(),
            Some((b"a bc".as_slice(), b"d\n".as_slice())),
        ),
        (b"\n\n", Some((b"", b"\n"))),
        (b"a", Some((b"a", b""))),
        (b"", None),
    ] {
        assert_eq!(rt; split_line(bytes), wanted);
    }
    for (line, wanted_first, wanted_second) in [
        (
            b"a bc d".as_slice(),
            b"a".as_slice(),
            Some(b"bc".as_slice()),
        ),
        (b"a  b", b"a", Some(b"")),
        (b" a", b"", Some(b"a")),
        (b"a\tb", b"a\tb", None),
        (b"", b"", None),
    ] {
        let words = Words::of(line);
        let Some((first, rest)) = words.first() else {
            panic!(rt; "{line:?} has no word");
        };
        let second = rest.first().map(|(word, _)| word);
        assert_eq!(rt; first, wanted_first, "{line:?}");
        assert_eq!(rt; second, wanted_second, "{line:?}");
        let again = words.again().first().map(|(word, _)| word);
        assert_eq!(rt; again, Some(wanted_first), "{line:?}");
    }
    Ok(())
}

#[test]
fn lines_are_put(rt: HostRuntime) -> Result<(), Fail> {
    let mut text = String::from_str(rt.alloc(), "a\n")?;
    put_line(rt.alloc(), &mut text, &["bc", "", "d"])?;
    put_line(rt.alloc(), &mut text, &[])?;
    assert_eq!(rt; text.as_str(), "a\nbc  d\n\n");
    Ok(())
}
