//! What texts are read as, and printed.

use pg_perm::{
    Action, CacheLine, Caches, CoreForm, CoreLine, Cores, DirKind, DirLine, Dirs, Draft, Event,
    FwdClass, Left, Messages, MsgClass, MsgLine, Pair, Pairs, Perm, ReplyName, ReqClass, Role,
    RowForm, RowLine, Rows, States, TakeLine, Takes, Who, Word, is_name,
};
use pg_samples::{MESI, MI, MOESI, MOSI, MSI};
use pg_text::{TextError, print, read};
use std::alloc::Global;
use std::process::Abort;
use std::test::Fail;

/// Each kind of line in each of its forms.
const WHOLE: &str = "protocol Small_1
cache I out none
cache S shared read
cache E owner write clean
dir A idle
dir B owned E
request Get read
request Put clean
forward Inv inv
forward Fetch share
reply Data data
core I load Get Data S AckCount E
core S load hit
core S store hit E
core S evict Put
take S Inv I
take E Fetch Data S
row A Get other Data B
row B Get owner Fetch B
row B Get sharer count B
row B evict owner last A
end
";

/// How many bytes `WHOLE` has.
const WHOLE_BYTES: u32 = 412;

/// The first line of a text.
const FIRST: &str = "protocol P\n";

/// The first four lines of a text.
const CACHES: &str = "protocol P\ncache I out none\ncache S shared read\ncache M owner write\n";

/// The first twelve lines of a text, whose directory states are named otherwise than its cache states.
const HEAD: &str = "protocol P
cache I out none
cache S shared read
cache M owner write
dir D idle
dir E shared
dir F owned M
request Get read
request Put dirty
forward Inv inv
forward Fetch share
reply Data data
";

fn word(rt: &impl Abort, text: &str) -> Word {
    let bytes = text.as_bytes();
    assert!(rt; is_name(bytes), "{text}");
    Word::new(bytes)
}

fn cache(rt: &impl Abort, line: u32, name: &str, role: Role, perm: Perm, clean: bool) -> CacheLine {
    CacheLine {
        line,
        name: word(rt, name),
        role,
        perm,
        clean,
    }
}

fn message(rt: &impl Abort, line: u32, name: &str, class: MsgClass) -> MsgLine {
    MsgLine {
        line,
        name: word(rt, name),
        class,
    }
}

fn core(line: u32, state: u8, event: Event, form: CoreForm) -> CoreLine {
    CoreLine {
        line,
        state,
        event,
        form,
    }
}

fn row(line: u32, dir: u8, form: RowForm, next: u8) -> RowLine {
    RowLine {
        line,
        dir,
        form,
        next,
    }
}

fn asks(who: Who, action: Action) -> RowForm {
    RowForm::Ask {
        request: 0,
        who,
        action,
    }
}

/// What the first half of `WHOLE` declares.
fn names(rt: &impl Abort, alloc: Global) -> Result<(Caches, Dirs, Messages), Fail> {
    let caches = vec![in alloc;
        cache(rt, 2, "I", Role::Out, Perm::None, false),
        cache(rt, 3, "S", Role::Shared, Perm::Read, false),
        cache(rt, 4, "E", Role::Owner, Perm::Write, true),
    ]?;
    let dirs = vec![in alloc;
        DirLine {
            line: 5,
            name: word(rt, "A"),
            kind: DirKind::Idle,
            beside: States::new(alloc),
        },
        DirLine {
            line: 6,
            name: word(rt, "B"),
            kind: DirKind::Owned,
            beside: States::from(vec![in alloc; 2]?),
        },
    ]?;
    let messages = vec![in alloc;
        message(rt, 7, "Get", MsgClass::Request(ReqClass::Read)),
        message(rt, 8, "Put", MsgClass::Request(ReqClass::Clean)),
        message(rt, 9, "Inv", MsgClass::Forward(FwdClass::Inv)),
        message(rt, 10, "Fetch", MsgClass::Forward(FwdClass::Share)),
        message(rt, 11, "Data", MsgClass::Reply),
    ]?;
    Ok((
        Caches::from(caches),
        Dirs::from(dirs),
        Messages::from(messages),
    ))
}

/// What `WHOLE` says.
fn whole(rt: &impl Abort, alloc: Global) -> Result<Draft, Fail> {
    let (caches, dirs, messages) = names(rt, alloc)?;
    let pairs = vec![in alloc;
        Pair {
            reply: ReplyName::Reply(4),
            fin: 1
        },
        Pair {
            reply: ReplyName::AckCount,
            fin: 2
        },
    ]?;
    let ask = CoreForm::Ask {
        request: 0,
        pairs: Pairs::from(pairs),
    };
    let cores = vec![in alloc;
        core(12, 0, Event::Load, ask),
        core(13, 1, Event::Load, CoreForm::Hit(None)),
        core(14, 1, Event::Store, CoreForm::Hit(Some(2))),
        core(15, 1, Event::Evict, CoreForm::Leave { request: 1 }),
    ]?;
    let takes = vec![in alloc;
        TakeLine {
            line: 16,
            state: 1,
            forward: 2,
            reply: None,
            next: 0,
        },
        TakeLine {
            line: 17,
            state: 2,
            forward: 3,
            reply: Some(4),
            next: 1,
        },
    ]?;
    let evict = RowForm::Evict {
        who: Who::Owner,
        left: Left::Last,
    };
    let rows = vec![in alloc;
        row(18, 0, asks(Who::Other, Action::Reply(4)), 1),
        row(19, 1, asks(Who::Owner, Action::Forward(3)), 1),
        row(20, 1, asks(Who::Sharer, Action::Count), 1),
        row(21, 1, evict, 0),
    ]?;
    Ok(Draft {
        line: 1,
        name: word(rt, "Small_1"),
        caches,
        dirs,
        messages,
        cores: Cores::from(cores),
        takes: Takes::from(takes),
        rows: Rows::from(rows),
    })
}

#[test]
fn a_text_is_read_up_to_its_end_line(rt: HostRuntime) -> Result<(), Fail> {
    let alloc = rt.alloc();
    for rest in ["", "core X\n\n", "\n", "cores 2"] {
        let mut text = String::from_str(alloc, WHOLE)?;
        text.push_str(rest)?;
        assert!(rt; text.len() < 1000);
        let (draft, place) = read(alloc, text.as_bytes())?;
        assert_eq!(rt; place, WHOLE_BYTES, "{rest:?}");
        assert_eq!(rt; draft, whole(&rt, alloc)?, "{rest:?}");
    }
    let (_, place) = read(alloc, b"protocol P\nend")?;
    assert_eq!(rt; place, 14);
    Ok(())
}

#[test]
fn a_draft_is_printed_as_its_text(rt: HostRuntime) -> Result<(), Fail> {
    let alloc = rt.alloc();
    for text in [WHOLE, MI, MSI, MESI, MOSI, MOESI] {
        assert!(rt; text.len() < 10_000);
        let (draft, _) = read(alloc, text.as_bytes())?;
        let printed = print(alloc, &draft)?;
        assert_eq!(rt; printed.as_slice(), text.as_bytes());
    }
    // A text whose end line has no newline is given one.
    let (draft, _) = read(alloc, b"protocol P\nend")?;
    let printed = print(alloc, &draft)?;
    assert_eq!(rt; printed.as_slice(), b"protocol P\nend\n".as_slice());
    Ok(())
}

/// The line and the rule that reading the text answers, or line 0 and `ok`.
fn answer(rt: &impl Abort, alloc: Global, text: &[u8]) -> (u32, &'static str) {
    assert!(rt; text.len() < 100_000);
    match read(alloc, text) {
        Ok(_) => (0, "ok"),
        Err(TextError::Form(fault)) => (fault.line, fault.rule.name()),
        Err(TextError::Memory) => (0, "memory"),
    }
}

/// The part so often, with a number from 0 on in the place of `#`.
fn repeated(alloc: Global, part: &str, times: u32) -> Result<String, Fail> {
    let mut text = String::new(alloc);
    for number in 0..times {
        match part.split_once("#") {
            Some((front, back)) => {
                text.push_str(format!(in alloc; "{front}{number}{back}")?.as_str())?;
            }
            None => text.push_str(part)?,
        }
    }
    Ok(text)
}

/// The first lines of a text, its other lines, and the line and rule of its first fault.
type Small = (&'static str, &'static str, (u32, &'static str));

/// The first lines of a text, what stands in front of a part, the part and how often it stands there, the rest, and the first fault.
type Repeated = (
    &'static str,
    &'static str,
    &'static str,
    u32,
    &'static str,
    (u32, &'static str),
);

const SMALL_TEXTS: &[Small] = &[
    ("", "", (1, "F6")),
    ("", "\n", (1, "F1")),
    ("", "end\n", (1, "F2")),
    ("", "cache I out none\nend\n", (1, "F2")),
    ("", "protocol", (1, "F1")),
    ("", "protocol P Q\n", (1, "F1")),
    ("", "protocol 1P\n", (1, "F1")),
    ("", "protocol _P\n", (1, "F1")),
    ("", "protocol P-1\n", (1, "F1")),
    ("", "protocol P_1\nend\n", (0, "ok")),
    ("", "protocol p\nend", (0, "ok")),
    ("", "protocol abcdefghijklmnopqrstuvwx\nend\n", (0, "ok")),
    ("", "protocol abcdefghijklmnopqrstuvwxy\nend\n", (1, "F1")),
    ("", "protocol P", (2, "F6")),
    ("", "protocol P\nprotocol P\n", (2, "F2")),
    ("", "protocol P\nend\nprotocol\n", (0, "ok")),
    ("", "protocol P\nend\n\n", (0, "ok")),
    ("", " protocol P\nend\n", (1, "F1")),
    ("", "protocol P \nend\n", (1, "F1")),
    ("", "protocol  P\nend\n", (1, "F1")),
    ("", "protocol\tP\nend\n", (1, "F1")),
    ("", "protocol P\0\nend\n", (1, "F1")),
    ("", "protocol P\r\nend\n", (1, "F1")),
    ("", "protocol P\nEnd\n", (2, "F1")),
    (FIRST, "cache I out none\nend\n", (0, "ok")),
    (FIRST, "cache S shared read clean\nend\n", (0, "ok")),
    (FIRST, "cache A_B out none\n", (2, "F1")),
    (FIRST, "cache S shared\n", (2, "F1")),
    (FIRST, "cache S shared none read\n", (2, "F1")),
    (FIRST, "cache I out none clean up\n", (2, "F1")),
    (FIRST, "cache I none out\n", (2, "F1")),
    (FIRST, "cache I out none\ncache I owner read\n", (3, "F3")),
    (FIRST, "request Get read\ncache I out none\n", (3, "F2")),
    (FIRST, "request Get data\n", (2, "F1")),
    (
        FIRST,
        "request Get write\nrequest Put clean\nrequest Drop dirty\nend\n",
        (0, "ok"),
    ),
    (
        FIRST,
        "forward A inv\nforward B share\nforward C keep\nforward D drop\nend\n",
        (0, "ok"),
    ),
    (FIRST, "forward A read\n", (2, "F1")),
    (FIRST, "forward A inv now\n", (2, "F1")),
    (FIRST, "forward A inv\nrequest B read\n", (3, "F2")),
    (FIRST, "reply A data\nforward B inv\n", (3, "F2")),
    (FIRST, "reply A\n", (2, "F1")),
    (FIRST, "request A_B read\nend\n", (0, "ok")),
    (FIRST, "request A read\nforward A inv\n", (3, "F3")),
    (FIRST, "forward InvAck inv\n", (2, "F3")),
    (FIRST, "request PutAck read\n", (2, "F3")),
    (FIRST, "reply AckCount data\n", (2, "F3")),
    (FIRST, "reply WbData data\n", (2, "F3")),
    (FIRST, "forward hit inv\n", (2, "F3")),
    (FIRST, "request evict read\n", (2, "F3")),
    (FIRST, "reply count data\n", (2, "F3")),
    (FIRST, "reply Count data\nend\n", (0, "ok")),
    (FIRST, "dir D idle\nend\n", (0, "ok")),
    (
        FIRST,
        "dir D shared\ndir E owned\ndir F mixed\nend\n",
        (0, "ok"),
    ),
    (CACHES, "dir I owned M S M\nend\n", (0, "ok")),
    (CACHES, "dir D mixed X\n", (5, "F4")),
    (CACHES, "dir D owned D\n", (5, "F4")),
    (CACHES, "dir D_1 idle\n", (5, "F1")),
    (CACHES, "dir D owned M_1\n", (5, "F1")),
    (CACHES, "dir D owner M\n", (5, "F1")),
    (CACHES, "dir D\n", (5, "F1")),
    (CACHES, "dir D idle\ndir D shared\n", (6, "F3")),
    (CACHES, "dir D idle\ndir D shared X\n", (6, "F3")),
    (CACHES, "dir D idle\ncache T out none\n", (6, "F2")),
    (CACHES, "request Get read\ndir D idle\n", (6, "F2")),
    (HEAD, "", (13, "F6")),
    (HEAD, "end", (0, "ok")),
    (HEAD, "end\nno line\n", (0, "ok")),
    (HEAD, "\nend\n", (13, "F1")),
    (HEAD, "end \n", (13, "F1")),
    (HEAD, "end now\n", (13, "F1")),
    (
        HEAD,
        "reply abcdefghijklmnopqrstuvwx data\nend\n",
        (0, "ok"),
    ),
    (HEAD, "reply abcdefghijklmnopqrstuvwxy data\n", (13, "F1")),
    (HEAD, "request PutM clean\n", (13, "F2")),
    (HEAD, "reply Get data\n", (13, "F3")),
    (HEAD, "reply Inv data\n", (13, "F3")),
    (HEAD, "reply S data\nend\n", (0, "ok")),
    (HEAD, "reply D data\nend\n", (0, "ok")),
    (HEAD, "core S load hit\nend\n", (0, "ok")),
    (HEAD, "core S load hit\n", (14, "F6")),
    (HEAD, "core  S load hit\n", (13, "F1")),
    (HEAD, "core S store hit M\nend\n", (0, "ok")),
    (HEAD, "core S load hit X\n", (13, "F4")),
    (HEAD, "core S load hit D\n", (13, "F4")),
    (HEAD, "core S load hit Data M\n", (13, "F4")),
    (HEAD, "core S load Foo M\n", (13, "F1")),
    (HEAD, "core S load Get\n", (13, "F1")),
    (HEAD, "core S load Get Data M Data\n", (13, "F1")),
    (HEAD, "core S store Get AckCount M\nend\n", (0, "ok")),
    (HEAD, "core S load Get Data S AckCount M\nend\n", (0, "ok")),
    (HEAD, "core S load Get Get M\n", (13, "F4")),
    (HEAD, "core S load Get Inv M\n", (13, "F4")),
    (HEAD, "core S load Data Data M\n", (13, "F4")),
    (HEAD, "core S load Inv Data M\n", (13, "F4")),
    (HEAD, "core S load Get Data Data\n", (13, "F4")),
    (HEAD, "core S load Get InvAck M\n", (13, "F4")),
    (HEAD, "core X load hit\n", (13, "F4")),
    (HEAD, "core D load hit\n", (13, "F4")),
    (HEAD, "core S evict Put\nend\n", (0, "ok")),
    (HEAD, "core S evict hit\n", (13, "F4")),
    (HEAD, "core S evict Fetch\n", (13, "F4")),
    (HEAD, "core S evict Put Data M\n", (13, "F1")),
    (HEAD, "core S evict\n", (13, "F1")),
    (HEAD, "core S_1 load hit\n", (13, "F1")),
    (HEAD, "core S evict Put\nreply Other data\n", (14, "F2")),
    (HEAD, "core X load hit\ncore S load\nend\n", (13, "F4")),
    (
        HEAD,
        "core S load hit\ncore S load\ncore X load hit\n",
        (14, "F1"),
    ),
    (HEAD, "take S Inv I\nend\n", (0, "ok")),
    (HEAD, "take M Fetch Data S\nend\n", (0, "ok")),
    (HEAD, "take S Inv\n", (13, "F1")),
    (HEAD, "take S Inv Data I I\n", (13, "F1")),
    (HEAD, "take S_1 Inv I\n", (13, "F1")),
    (HEAD, "take S Inv I_1\n", (13, "F1")),
    (HEAD, "take X Inv I\n", (13, "F4")),
    (HEAD, "take S Inv X\n", (13, "F4")),
    (HEAD, "take S Get I\n", (13, "F4")),
    (HEAD, "take S Data I\n", (13, "F4")),
    (HEAD, "take S Inv Put I\n", (13, "F4")),
    (HEAD, "take S Inv Fetch I\n", (13, "F4")),
    (HEAD, "take S Inv AckCount I\n", (13, "F4")),
    (HEAD, "take M hit I\n", (13, "F4")),
    (HEAD, "take D Inv I\n", (13, "F4")),
    (HEAD, "take S Inv I\ncore S load hit\n", (14, "F2")),
    (HEAD, "row D Get other Data E\nend\n", (0, "ok")),
    (HEAD, "row D Get sharer count E\nend\n", (0, "ok")),
    (HEAD, "row F Get owner Fetch F\nend\n", (0, "ok")),
    (HEAD, "row E evict sharer last D\nend\n", (0, "ok")),
    (HEAD, "row F evict owner more E\nend\n", (0, "ok")),
    (HEAD, "row F evict other last D\n", (13, "F1")),
    (HEAD, "row F evict sharer Data D\n", (13, "F1")),
    (HEAD, "row F evict owner last\n", (13, "F1")),
    (HEAD, "row F evict owner last D D\n", (13, "F1")),
    (HEAD, "row F Get sharer last D\n", (13, "F4")),
    (HEAD, "row D hit other Data E\n", (13, "F4")),
    (HEAD, "row D Inv other Data E\n", (13, "F4")),
    (HEAD, "row D Get other Put E\n", (13, "F4")),
    (HEAD, "row D Get other AckCount E\n", (13, "F4")),
    (HEAD, "row D Get other hit E\n", (13, "F4")),
    (HEAD, "row S Get other Data E\n", (13, "F4")),
    (HEAD, "row D Get other Data S\n", (13, "F4")),
    (HEAD, "row D Get all Data E\n", (13, "F1")),
    (HEAD, "row D Get other Data\n", (13, "F1")),
    (HEAD, "row D Get other Data E E\n", (13, "F1")),
    (HEAD, "row D_1 Get other Data E\n", (13, "F1")),
    (HEAD, "row D Get other Data E\ntake S Inv I\n", (14, "F2")),
    (
        HEAD,
        "row D Get other Data E\nrow D Get other Data E\nend\n",
        (0, "ok"),
    ),
    (HEAD, "row X Get other Data E\nrow D\n", (13, "F4")),
];

/// The limits on lines, and that of 80 words on each.
const LIMITS: &[Repeated] = &[
    (FIRST, "", "cache s# out none\n", 16, "end\n", (0, "ok")),
    (
        FIRST,
        "",
        "cache s# out none\n",
        16,
        "cache t out none\n",
        (18, "F5"),
    ),
    (
        FIRST,
        "",
        "cache s# out none\n",
        16,
        "cache s3 out none\n",
        (18, "F3"),
    ),
    (FIRST, "", "dir s# idle\n", 16, "end\n", (0, "ok")),
    (FIRST, "", "dir s# idle\n", 16, "dir t idle\n", (18, "F5")),
    (FIRST, "", "dir s# idle\n", 16, "dir s3 idle\n", (18, "F3")),
    (FIRST, "", "request s# read\n", 32, "end\n", (0, "ok")),
    (
        FIRST,
        "",
        "request s# read\n",
        32,
        "reply t data\n",
        (34, "F5"),
    ),
    (
        FIRST,
        "",
        "request s# read\n",
        32,
        "reply s3 data\n",
        (34, "F3"),
    ),
    (
        FIRST,
        "",
        "cache s# out none\n",
        16,
        "cache t out none up\n",
        (18, "F1"),
    ),
    (FIRST, "", "dir s# idle\n", 16, "dir t idle X\n", (18, "F4")),
    (
        FIRST,
        "",
        "forward s# inv\n",
        31,
        "reply t data\nend\n",
        (0, "ok"),
    ),
    (
        FIRST,
        "",
        "forward s# inv\n",
        31,
        "reply t data\nreply u data\n",
        (34, "F5"),
    ),
    (
        FIRST,
        "",
        "reply s# data\n",
        32,
        "reply hit data\n",
        (34, "F3"),
    ),
    (HEAD, "", "core S load hit\n", 512, "end\n", (0, "ok")),
    (
        HEAD,
        "",
        "core S load hit\n",
        512,
        "row D Get other Data E\n",
        (525, "F5"),
    ),
    (HEAD, "", "take S Inv I\n", 512, "end\n", (0, "ok")),
    (
        HEAD,
        "",
        "take S Inv I\n",
        512,
        "row D Get other Data E\n",
        (525, "F5"),
    ),
    (
        HEAD,
        "",
        "row D Get other Data E\n",
        512,
        "end\n",
        (0, "ok"),
    ),
    (
        HEAD,
        "",
        "row D Get other Data E\n",
        512,
        "row D Get other Data E\n",
        (525, "F5"),
    ),
    (
        HEAD,
        "",
        "core S load hit\n",
        512,
        "core S store hit M\n",
        (525, "F5"),
    ),
    (
        HEAD,
        "",
        "core S load hit\n",
        512,
        "take S Inv I\n",
        (525, "F5"),
    ),
    (
        HEAD,
        "",
        "core S load hit\n",
        512,
        "take S Inv X\n",
        (525, "F4"),
    ),
    (
        HEAD,
        "",
        "core S load hit\n",
        510,
        "take S Inv I\nrow D Get other Data E\nend\n",
        (0, "ok"),
    ),
    (
        HEAD,
        "",
        "core S load hit\n",
        510,
        "take S Inv I\nrow D Get other Data E\nrow D Get other Data E\n",
        (525, "F5"),
    ),
    (HEAD, "core S load Get", " Data M", 38, "\nend\n", (0, "ok")),
    (
        HEAD,
        "core S load Get",
        " Data M",
        39,
        "\nend\n",
        (13, "F5"),
    ),
    (
        HEAD,
        "core S load Get",
        " Data M",
        39,
        " Data X\nend\n",
        (13, "F4"),
    ),
    (
        HEAD,
        "core S load Get",
        " Data M",
        38,
        " Data\nend\n",
        (13, "F1"),
    ),
    (CACHES, "dir D mixed", " M", 77, "\nend\n", (0, "ok")),
    (CACHES, "dir D mixed", " M", 78, "\nend\n", (5, "F5")),
    (CACHES, "dir D mixed", " M", 78, " X\nend\n", (5, "F4")),
    (
        CACHES,
        "dir D idle\ndir D mixed",
        " M",
        78,
        "\nend\n",
        (6, "F3"),
    ),
    (HEAD, "dir G mixed", " M", 78, "\nend\n", (13, "F2")),
];

#[test]
fn the_first_fault_is_answered(rt: HostRuntime) -> Result<(), Fail> {
    let alloc = rt.alloc();
    for (head, tail, wanted) in SMALL_TEXTS {
        let mut text = String::from_str(alloc, head)?;
        text.push_str(tail)?;
        let got = answer(&rt, alloc, text.as_str().as_bytes());
        assert_eq!(rt; got, *wanted, "{tail:?}");
    }
    for (head, front, part, times, tail, wanted) in LIMITS {
        let mut text = String::from_str(alloc, head)?;
        text.push_str(front)?;
        text.push_str(repeated(alloc, part, *times)?.as_str())?;
        text.push_str(tail)?;
        let got = answer(&rt, alloc, text.as_str().as_bytes());
        assert_eq!(rt; got, *wanted, "{front:?}, {times} times {part:?}, {tail:?}");
    }
    let got = answer(&rt, alloc, b"protocol P\xff\nend\n");
    assert_eq!(rt; got, (1, "F1"));
    Ok(())
}
