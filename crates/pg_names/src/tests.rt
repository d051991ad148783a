use crate::{Added, Names};

#[test]
fn numbers_texts_in_order_of_first_adding(rt: HostRuntime) {
    let mut names = Names::new(rt.alloc());
    assert!(rt; names.is_empty());
    for (text, answer) in [
        ("I", Added::New(0)),
        ("S", Added::New(1)),
        ("I", Added::There(0)),
    ] {
        assert!(rt; names.len() < 3);
        assert_eq!(rt; names.add(text), Ok(answer), "at {text}");
    }
    for (text, number) in [("I", Some(0)), ("S", Some(1)), ("M", None)] {
        assert_eq!(rt; names.find(text), number, "at {text}");
    }
    assert_eq!(rt; names.len(), 2);
    assert_eq!(rt; names.text(1), "S");
}
