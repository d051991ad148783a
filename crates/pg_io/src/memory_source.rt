ghost use Rattle.std.specs.Prelude.{◌≡◌, ◌≢◌, ◌+◌, ◌-◌, ◌^◌, ◌<◌, ◌≤◌, ◌↔◌, Some, Contains, length};
ghost use Rattle.pg_io.specs.Source.{Reads, given_count};
ghost use Rattle.pg_io.specs.Pieces.{next_count};
ghost use Rattle.pg_io.specs.Memory.{next_call};

use crate::pieces::Pieces;
use crate::source::{Source, Took};
use std::marker::Model;

/// A source that gives bytes from memory, and fails where it is told to.
#[derive(Drop)]
pub struct MemorySource {
    pieces: Pieces,
    fails: Vec<u64>,
    calls: u64,
    faults: u64,
}

impl Model for MemorySource {
    ghost use Rattle.pg_io.specs.Memory.{SourceState};

    ghost Value = { SourceState };

    ghost view = { λ s. record { left = s.pieces.left; piece = s.pieces.piece; fails = s.fails.items; calls = s.calls; faults = s.faults } };
}

impl MemorySource {
    /// A source of these bytes that gives at most `piece` of them at a time. The calls whose numbers, counted
    /// from 1, are in `fails` fail.
    pub fn new(bytes: Vec<u8>, piece: u32, fails: Vec<u64>) -> Self
        requires { 1 ≤ piece }
        ensures { result ≡ record { left = bytes.items; piece = piece; fails = fails.items; calls = 0; faults = 0 } }
    {
        MemorySource {
            pieces: Pieces::new(bytes, piece),
            fails,
            calls: 0,
            faults: 0,
        }
    }
}

impl Source for MemorySource {
    ghost left = { λ s. Some s.left };

    ghost faults = { λ s. s.faults };

    fn read(&mut self, buf: &mut [u8]) -> Took
        requires room { 0 < length buf.old }
        requires countable { self.old.faults < 2 ^ 64 - 1 }
        ensures reads { Reads result buf.new (Some self.old.left) (Some self.new.left) self.old.faults self.new.faults }
        ensures fails { (result ≡ Took.Failed) ↔ Contains self.old.fails (next_call self.old.calls) }
        ensures count { result ≢ Took.Failed → given_count result ≡ next_count (length buf.new) self.old.piece self.old.left }
        ensures calls { self.new.calls ≡ next_call self.old.calls }
        ensures once { self.new.faults ≤ self.old.faults + 1 }
        ensures settings { (self.new.piece ≡ self.old.piece) × (self.new.fails ≡ self.old.fails) }
    {
        self.calls = self.calls.saturating_add(1);
        if self.fails.contains(&self.calls) {
            self.faults += 1;
            return Took::Failed;
        }
        self.pieces.give(buf)
    }
}
