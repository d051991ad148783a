ghost use Rattle.std.specs.Prelude.{◌≡◌, ◌+◌, ◌-◌, ◌^◌, ◌<◌, ◌≤◌, None, length};
ghost use Rattle.pg_io.specs.Source.{Reads};
ghost use Rattle.pg_io.specs.Sink.{Writes};
ghost use Rattle.pg_io.specs.Real.{PassesOn, HandsOver};

use crate::sink::{Put, Sink};
use crate::source::{Source, Took};
use std::io::{Read, Write};
use std::marker::Model;

/// The most bytes that one call asks a stream for, or hands to it.
const PIECE: usize = 65536;

/// A reader as a source, as standard input. It doesn't tell what is left. Contracts see the reader and how many of
/// its reads have failed, and that what is given is what the reader gave.
#[derive(Drop)]
pub struct RealSource<R> {
    reader: R,
    faults: u64,
}

impl<R> Model for RealSource<R> {
    ghost use Rattle.pg_io.specs.Real.{CountedStream};

    ghost Value = { CountedStream R };

    ghost view = { λ s. record { stream = s.reader; faults = s.faults } };
}

impl<R> RealSource<R> {
    pub fn new(reader: R) -> Self
        ensures { result ≡ record { stream = reader; faults = 0 } }
    {
        RealSource { reader, faults: 0 }
    }
}

impl<R: Read> Source for RealSource<R> {
    ghost left = { λ _. None };

    ghost faults = { λ s. s.faults };

    fn read(&mut self, buf: &mut [u8]) -> Took
        requires room { 0 < length buf.old }
        requires countable { self.old.faults < 2 ^ 64 - 1 }
        ensures reads { Reads result buf.new None None self.old.faults self.new.faults }
        ensures once { self.new.faults ≤ self.old.faults + 1 }
        ensures stream { PassesOn result buf.new (R.remaining self.old.stream) (R.remaining self.new.stream) }
    {
        let most = buf.len().min(PIECE);
        match self.reader.read(&mut buf[..most]) {
            Ok(0) => Took::End,
            Ok(count) => Took::Bytes(count as u32),
            Err(_) => {
                self.faults += 1;
                Took::Failed
            }
        }
    }
}

/// A writer as a sink, as standard output. It doesn't tell what it holds. Contracts see the writer and how many of
/// its writes have failed or taken nothing, and that what is taken went to the writer.
#[derive(Drop)]
pub struct RealSink<W> {
    writer: W,
    faults: u64,
}

impl<W> Model for RealSink<W> {
    ghost use Rattle.pg_io.specs.Real.{CountedStream};

    ghost Value = { CountedStream W };

    ghost view = { λ s. record { stream = s.writer; faults = s.faults } };
}

impl<W> RealSink<W> {
    pub fn new(writer: W) -> Self
        ensures { result ≡ record { stream = writer; faults = 0 } }
    {
        RealSink { writer, faults: 0 }
    }
}

impl<W: Write> Sink for RealSink<W> {
    ghost held = { λ _. None };

    ghost faults = { λ s. s.faults };

    fn write(&mut self, bytes: &[u8]) -> Put
        requires some { 0 < length bytes.now }
        requires countable { self.old.faults < 2 ^ 64 - 1 }
        ensures writes { Writes result bytes.now None None self.old.faults self.new.faults }
        ensures once { self.new.faults ≤ self.old.faults + 1 }
        ensures stream { HandsOver result bytes.now (W.contents self.old.stream) (W.contents self.new.stream) }
    {
        let most = bytes.len().min(PIECE);
        match self.writer.write(&bytes[..most]) {
            Ok(count) if count > 0 => Put::Bytes(count as u32),
            // A write that takes nothing would go on forever.
            _ => {
                self.faults += 1;
                Put::Failed
            }
        }
    }
}
