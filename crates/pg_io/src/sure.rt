ghost use Rattle.std.specs.Prelude.{◌≡◌, ◌≢◌, ◌-◌, ◌^◌, ◌<◌, ◌≤◌, Some, None, length, min};
ghost use Rattle.pg_io.specs.Source.{Reads, given_count};
ghost use Rattle.pg_io.specs.Pieces.{next_count};
ghost use Rattle.pg_io.specs.Sink.{Writes, taken_count};

use crate::pieces::Pieces;
use crate::sink::{Put, Sink};
use crate::source::{Source, Took};
use std::marker::Model;

/// A source that gives bytes from memory and never fails.
#[derive(Drop)]
pub struct SureSource {
    pieces: Pieces,
}

impl Model for SureSource {
    ghost use Rattle.pg_io.specs.Pieces.{PiecesLeft};

    ghost Value = { PiecesLeft };

    ghost view = { λ s. s.pieces };
}

impl SureSource {
    /// A source of these bytes that gives at most `piece` of them at a time.
    pub fn new(bytes: Vec<u8>, piece: u32) -> Self
        requires { 1 ≤ piece }
        ensures { result ≡ record { left = bytes.items; piece = piece } }
    {
        SureSource {
            pieces: Pieces::new(bytes, piece),
        }
    }
}

impl Source for SureSource {
    ghost left = { λ s. Some s.left };

    ghost faults = { λ _. 0 };

    fn read(&mut self, buf: &mut [u8]) -> Took
        requires { 0 < length buf.old }
        ensures reads { Reads result buf.new (Some self.old.left) (Some self.new.left) 0 0 }
        ensures sure { result ≢ Took.Failed }
        ensures count { given_count result ≡ next_count (length buf.new) self.old.piece self.old.left }
        ensures piece { self.new.piece ≡ self.old.piece }
    {
        self.pieces.give(buf)
    }
}

/// A sink that keeps no bytes and never fails.
#[derive(Clone, Copy, Debug, Default)]
pub struct SureSink;

impl SureSink {
    pub fn new() -> Self {
        SureSink
    }
}

impl Sink for SureSink {
    ghost held = { λ _. None };

    ghost faults = { λ _. 0 };

    fn write(&mut self, bytes: &[u8]) -> Put
        requires { 0 < length bytes.now }
        ensures writes { Writes result bytes.now None None 0 0 }
        ensures sure { result ≢ Put.Failed }
        ensures count { taken_count result ≡ min (length bytes.now) (2 ^ 32 - 1) }
    {
        Put::Bytes(bytes.len().min(u32::MAX as usize) as u32)
    }
}
