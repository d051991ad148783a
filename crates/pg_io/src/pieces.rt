ghost use Rattle.std.specs.Prelude.{◌≡◌, ◌≢◌, ◌<◌, ◌≤◌, Some, length, take};
ghost use Rattle.pg_io.specs.Source.{Reads, given_count};
ghost use Rattle.pg_io.specs.Pieces.{next_count};

use crate::source::Took;
use std::marker::Model;

/// Bytes that are given a piece at a time. Contracts see what is left, and the size of a piece.
#[derive(Drop)]
pub struct Pieces {
    bytes: Vec<u8>,
    given: usize,
    piece: u32,
}

impl Model for Pieces {
    ghost use Rattle.std.specs.Prelude.{◌≤◌, length, drop};
    ghost use Rattle.pg_io.specs.Pieces.{PiecesLeft};

    ghost Value = { PiecesLeft };

    ghost view = { λ p. record { left = drop p.given p.bytes.items; piece = p.piece } };

    ghost invariant = { λ p. (p.given ≤ length p.bytes.items) × (1 ≤ p.piece) };
}

impl Pieces {
    pub fn new(bytes: Vec<u8>, piece: u32) -> Self
        requires { 1 ≤ piece }
        ensures { result ≡ record { left = bytes.items; piece = piece } }
    {
        Pieces {
            bytes,
            given: 0,
            piece,
        }
    }

    /// Gives the next piece, as far as the buffer goes.
    pub fn give(&mut self, buf: &mut [u8]) -> Took
        requires { 0 < length buf.old }
        ensures reads { Reads result buf.new (Some self.old.left) (Some self.new.left) 0 0 }
        ensures count { given_count result ≡ next_count (length buf.new) self.old.piece self.old.left }
        ensures piece { self.new.piece ≡ self.old.piece }
    {
        let (_, left) = self.bytes.split_at(self.given);
        if left.is_empty() {
            return Took::End;
        }
        let count = left.len().min(buf.len()).min(self.piece as usize);
        copy_front(left, buf, count);
        self.given += count;
        Took::Bytes(count as u32)
    }
}

// Copies the first `count` bytes to the front of `to`.
fn copy_front(from: &[u8], to: &mut [u8], count: usize)
    requires given { count ≤ length from.now }
    requires room { count ≤ length to.old }
    ensures { take count to.new ≡ take count from.now }
{
    to[..count].copy_from_slice(&from[..count]);
}
