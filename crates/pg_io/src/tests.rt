ghost use Rattle.std.specs.Prelude.{◌≤◌, IfOk};

use super::*;
use std::alloc::Global;
use std::io;
use std::io::{ErrorKind, Read, Write};
use std::test::Fail;

/// A reader that fails at each call.
#[derive(Drop)]
struct Broken;

impl Read for Broken {
    fn read(&mut self, _buf: &mut [u8]) -> io::Result<usize> {
        Err(io::Error::from(ErrorKind::BrokenPipe))
    }
}

/// A stream whose first call fails and whose other calls take or give one byte. It counts its calls.
#[derive(Drop)]
struct FailsOnce {
    kind: ErrorKind,
    calls: u32,
}

impl FailsOnce {
    fn new(kind: ErrorKind) -> Self {
        FailsOnce { kind, calls: 0 }
    }

    fn call(&mut self, room: usize) -> io::Result<usize>
        ensures { IfOk result (λ count. count ≤ room) }
    {
        self.calls = self.calls.saturating_add(1);
        if self.calls == 1 {
            Err(io::Error::from(self.kind))
        } else {
            Ok(room.min(1))
        }
    }
}

impl Read for FailsOnce {
    fn read(&mut self, buf: &mut [u8]) -> io::Result<usize> {
        self.call(buf.len())
    }
}

impl Write for FailsOnce {
    fn write(&mut self, buf: &[u8]) -> io::Result<usize> {
        self.call(buf.len())
    }

    fn flush(&mut self) -> io::Result<()> {
        Ok(())
    }
}

#[test]
fn all_is_read_or_the_cause_is_told(rt: HostRuntime) -> Result<(), Fail> {
    let alloc = rt.alloc();
    for (text, limit, fail, answer) in [
        ("seven b", 7, 0, "seven b"),
        ("seven b", 6, 0, "the input is too long"),
        ("seven b", 7, 2, "the input can't be read"),
        ("", 0, 0, ""),
    ] {
        let bytes = text.as_bytes().to_vec(alloc)?;
        let mut source = MemorySource::new(bytes, 3, vec![in alloc; fail]?);
        match read_all(alloc, &mut source, limit) {
            Ok(all) => assert_eq!(rt; all.as_slice(), answer.as_bytes(), "{text} up to {limit}"),
            Err(error) => assert_eq!(rt;
                format!(in alloc; "{error}")?.as_str(),
                answer,
                "{text} up to {limit}"
            ),
        }
    }
    Ok(())
}

#[test]
fn a_failed_read_gives_nothing(rt: HostRuntime) -> Result<(), Fail> {
    let alloc = rt.alloc();
    let mut source = MemorySource::new(b"abc".to_vec(alloc)?, 2, vec![in alloc; 2]?);
    let mut buffer = [0; 4];
    assert_eq!(rt; source.read(&mut buffer), Took::Bytes(2));
    assert_eq!(rt; source.read(&mut buffer), Took::Failed);
    assert_eq!(rt; source.read(&mut buffer), Took::Bytes(1));
    assert_eq!(rt; source.read(&mut buffer), Took::End);
    assert_eq!(rt; buffer, *b"cb\0\0");
    Ok(())
}

#[test]
fn all_is_written_up_to_the_fault(rt: HostRuntime) -> Result<(), Fail> {
    let alloc = rt.alloc();
    for (room, fail, want, held) in [
        (9, 0, None, "seven b"),
        (7, 0, None, "seven b"),
        (5, 0, Some(5), "seven"),
        (9, 2, Some(3), "sev"),
    ] {
        let mut sink = MemorySink::new(alloc, room, 3, vec![in alloc; fail]?)?;
        let fault = match write_all(&mut sink, b"seven b") {
            Ok(()) => None,
            Err(WriteError::Fault { written }) => Some(written),
        };
        assert_eq!(rt; fault, want, "room for {room}, failing at {fail}");
        assert_eq!(rt; sink.held(), held.as_bytes());
    }
    Ok(())
}

#[test]
fn sure_ones_do_all(rt: HostRuntime) -> Result<(), Fail> {
    let alloc = rt.alloc();
    let all = read_all(alloc, &mut SureSource::new(b"abc".to_vec(alloc)?, 1), 3)?;
    assert_eq!(rt; all.as_slice(), b"abc".as_slice());
    write_all(&mut SureSink::new(), &all)?;
    Ok(())
}

#[test]
fn real_streams_give_what_they_have(rt: HostRuntime) -> Result<(), Fail> {
    let alloc = rt.alloc();
    let text = b"some text".as_slice();
    let all = read_all(alloc, &mut RealSource::new(text), 9)?;
    assert_eq!(rt; all.as_slice(), text);
    let broken = read_all(alloc, &mut RealSource::new(text.chain(Broken)), 99);
    assert!(rt; matches!(&broken, Err(ReadAllError::Fault)));

    let mut written = Vec::new(alloc);
    write_all(&mut RealSink::new(&mut written), text)?;
    assert_eq!(rt; written.as_slice(), text);
    let mut room = [0; 4];
    let full = write_all(&mut RealSink::new(room.as_mut_slice()), text);
    assert!(rt; matches!(&full, Err(WriteError::Fault { written: 4 })));
    assert_eq!(rt; room, *b"some");
    Ok(())
}

/// A call of an adapter is one call of its stream: it isn't made again after an error, of whatever kind.
#[test]
fn a_failed_call_is_not_made_again(rt: HostRuntime) -> Result<(), Fail> {
    for kind in [
        ErrorKind::Interrupted,
        ErrorKind::WouldBlock,
        ErrorKind::BrokenPipe,
    ] {
        let mut stream = FailsOnce::new(kind);
        let mut source = RealSource::new(&mut stream);
        let mut buffer = [0; 4];
        assert_eq!(rt; source.read(&mut buffer), Took::Failed, "{kind:?}");
        assert_eq!(rt; source.read(&mut buffer), Took::Bytes(1), "{kind:?}");
        assert_eq!(rt; stream.calls, 2, "{kind:?}");

        let mut stream = FailsOnce::new(kind);
        let mut sink = RealSink::new(&mut stream);
        assert_eq!(rt; sink.write(b"some"), Put::Failed, "{kind:?}");
        assert_eq!(rt; sink.write(b"some"), Put::Bytes(1), "{kind:?}");
        assert_eq!(rt; stream.calls, 2, "{kind:?}");
    }
    Ok(())
}

#[test]
fn a_real_stream_fails_as_a_whole(rt: HostRuntime) -> Result<(), Fail> {
    let mut stream = FailsOnce::new(ErrorKind::Interrupted);
    let all = read_all(rt.alloc(), &mut RealSource::new(&mut stream), 9);
    assert!(rt; matches!(&all, Err(ReadAllError::Fault)));
    assert_eq!(rt; stream.calls, 1);

    let mut stream = FailsOnce::new(ErrorKind::Interrupted);
    let written = write_all(&mut RealSink::new(&mut stream), b"some");
    assert!(rt; matches!(&written, Err(WriteError::Fault { written: 0 })));
    assert_eq!(rt; stream.calls, 1);
    Ok(())
}
