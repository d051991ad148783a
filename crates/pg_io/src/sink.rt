ghost use Rattle.std.specs.Prelude.{ℕ, ◌-◌, ◌^◌, ◌<◌, Option, List, length};
ghost use Rattle.pg_io.specs.Sink.{Writes};

/// The answer of a write.
#[derive(Clone, Copy, Debug, PartialEq, Eq)]
pub enum Put {
    /// So many bytes were taken from the front, at least one.
    Bytes(u32),
    /// The call failed, and took nothing.
    Failed,
}

/// Where bytes go.
pub trait Sink {
    /// The bytes that the sink holds, where it tells them.
    ghost held: { Self → Option (List ℕ) };

    /// How many calls have failed. It never falls.
    ghost faults: { Self → ℕ };

    /// Takes some bytes from the front of `bytes`. It answers `Failed` only where the count of faults rises.
    fn write(&mut self, bytes: &[u8]) -> Put
        requires some { 0 < length bytes.now }
        requires countable { faults self.old < 2 ^ 64 - 1 }
        ensures { Writes result bytes.now (held self.old) (held self.new) (faults self.old) (faults self.new) };
}
