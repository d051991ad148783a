use super::*;
use std::test::*;

#[test]
fn names(rt: HostRuntime) {
    for (word, is_name_wanted, is_state_wanted) in [
        (b"M".as_slice(), true, true),
        (b"Fwd_GetS", true, false),
        (b"", false, false),
        (b"_", false, false),
        (b"9", false, false),
        (b"a9", true, true),
        (b"a-b", false, false),
        (b"abcdefghijklmnopqrstuvwx", true, true),
        (b"abcdefghijklmnopqrstuvwxy", false, false),
    ] {
        assert_eq!(rt; is_name(word), is_name_wanted, "{word:?}");
        assert_eq!(rt; is_state_name(word), is_state_wanted, "{word:?}");
    }
}

#[test]
fn lists(rt: HostRuntime) -> Result<(), Fail> {
    let mut list = Sequence::new(rt.alloc());
    assert!(rt; list.is_empty());
    list.push(7u8)?;
    list.push(9)?;
    assert_eq!(rt; list.len(), 2);
    assert_eq!(rt; list.get(1).copied(), Some(9));
    assert_eq!(rt; list.as_slice(), [7, 9].as_slice());
    let same = Sequence::from(list.into_vec());
    assert!(rt; is_name(b"GetS"));
    let word = Word::new(b"GetS");
    assert_eq!(rt; word.as_str(), "GetS");
    assert_eq!(rt; word.bytes(), b"GetS".as_slice());
    assert!(rt; word == word.clone()?);
    assert_eq!(rt; same.into_vec().len(), 2);
    assert_eq!(rt; Rule::F6.name(), "F6");
    assert_eq!(rt; Rule::S19.name(), "S19");
    assert_eq!(rt; Rule::C5.name(), "C5");
    Ok(())
}

#[test]
fn kinds_have_words(rt: HostRuntime) {
    assert_eq!(rt; Role::Out.word(), "out");
    assert_eq!(rt; Mode::Defer.word(), "defer");
    assert_eq!(rt; find_word(b"write".as_slice()), Some(Perm::Write));
    assert_eq!(rt; find_word(b"dirty".as_slice()), Some(ReqClass::Dirty));
    assert_eq!(rt; find_word(b"evict".as_slice()), Some(Event::Evict));
    assert_eq!(rt; find_word(b"mixed".as_slice()), Some(DirKind::Mixed));
    assert_eq!(rt; find_word(b"inv".as_slice()), Some(FwdClass::Inv));
    assert_eq!(rt; find_word(b"more".as_slice()), Some(Left::More));
    assert_eq!(rt;
        find_among(&[Who::Sharer, Who::Owner], b"other".as_slice()),
        None
    );
}

#[test]
fn numbers_have_names(rt: HostRuntime) -> Result<(), Fail> {
    let alloc = rt.alloc();
    let mut draft = Draft {
        line: 1,
        name: Word::new(b"P"),
        caches: Sequence::new(alloc),
        dirs: Sequence::new(alloc),
        messages: Sequence::new(alloc),
        cores: Sequence::new(alloc),
        takes: Sequence::new(alloc),
        rows: Sequence::new(alloc),
    };
    draft.caches.push(CacheLine {
        line: 2,
        name: Word::new(b"M"),
        role: Role::Owner,
        perm: Perm::Write,
        clean: false,
    })?;
    draft.dirs.push(DirLine {
        line: 3,
        name: Word::new(b"I"),
        kind: DirKind::Idle,
        beside: Sequence::new(alloc),
    })?;
    draft.messages.push(MsgLine {
        line: 4,
        name: Word::new(b"GetM"),
        class: MsgClass::Request(ReqClass::Write),
    })?;
    for (number, cache, dir, message) in [(0, "M", "I", "GetM"), (1, "", "", "")] {
        assert_eq!(rt; cache_name(&draft, number), cache);
        assert_eq!(rt; dir_name(&draft, number), dir);
        assert_eq!(rt; message_name(&draft, number), message);
    }
    Ok(())
}
