ghost use Rattle.std.specs.Prelude.{◌≡◌, ◌≢◌, ◌+◌, ◌-◌, ◌^◌, ◌<◌, ◌≤◌, ◌↔◌, ◌⊎◌, Some, [], Contains, IfOk, length, min};
ghost use Rattle.pg_io.specs.Sink.{Writes, taken_count};
ghost use Rattle.pg_io.specs.Memory.{next_call};

use crate::sink::{Put, Sink};
use std::alloc::{AllocError, Global};
use std::marker::Model;

/// A sink that keeps its bytes in memory, and fails where it is told to and where it is full.
#[derive(Drop)]
pub struct MemorySink {
    bytes: Vec<u8>,
    room: u32,
    piece: u32,
    fails: Vec<u64>,
    calls: u64,
    faults: u64,
}

impl Model for MemorySink {
    ghost use Rattle.std.specs.Prelude.{◌≤◌, length, vec_capacity};
    ghost use Rattle.pg_io.specs.Memory.{SinkState};

    ghost Value = { SinkState };

    ghost view = { λ s. record { held = s.bytes.items; room = s.room; piece = s.piece; fails = s.fails.items; calls = s.calls; faults = s.faults } };

    ghost invariant = { λ s. (length s.bytes.items ≤ s.room) × (s.room ≤ vec_capacity s.bytes) × (1 ≤ s.piece) };
}

impl MemorySink {
    /// A sink for at most `room` bytes that takes at most `piece` of them at a time. The calls whose numbers,
    /// counted from 1, are in `fails` fail. It takes all its memory here.
    pub fn new(alloc: Global, room: u32, piece: u32, fails: Vec<u64>) -> Result<Self, AllocError>
        requires { 1 ≤ piece }
        ensures { IfOk result (λ sink. sink ≡ record { held = []; room = room; piece = piece; fails = fails.items; calls = 0; faults = 0 }) }
    {
        Ok(MemorySink {
            bytes: Vec::with_capacity(alloc, room as usize)?,
            room,
            piece,
            fails,
            calls: 0,
            faults: 0,
        })
    }

    /// The bytes that it holds.
    pub fn held(&self) -> &[u8]
        ensures { result.now ≡ self.now.held }
    {
        &self.bytes
    }
}

impl Sink for MemorySink {
    ghost held = { λ s. Some s.held };

    ghost faults = { λ s. s.faults };

    fn write(&mut self, bytes: &[u8]) -> Put
        requires some { 0 < length bytes.now }
        requires countable { self.old.faults < 2 ^ 64 - 1 }
        ensures writes { Writes result bytes.now (Some self.old.held) (Some self.new.held) self.old.faults self.new.faults }
        ensures fails { (result ≡ Put.Failed) ↔ (Contains self.old.fails (next_call self.old.calls) ⊎ (self.old.room ≤ length self.old.held)) }
        ensures count { result ≢ Put.Failed → taken_count result ≡ min self.old.piece (min (length bytes.now) (self.old.room - length self.old.held)) }
        ensures calls { self.new.calls ≡ next_call self.old.calls }
        ensures once { self.new.faults ≤ self.old.faults + 1 }
        ensures settings { (self.new.room ≡ self.old.room) × (self.new.piece ≡ self.old.piece) × (self.new.fails ≡ self.old.fails) }
    {
        self.calls = self.calls.saturating_add(1);
        let free = self.room as usize - self.bytes.len();
        if free == 0 || self.fails.contains(&self.calls) {
            self.faults += 1;
            return Put::Failed;
        }
        let count = free.min(bytes.len()).min(self.piece as usize);
        self.bytes.extend_from_slice(&bytes[..count]).unwrap();
        Put::Bytes(count as u32)
    }
}
