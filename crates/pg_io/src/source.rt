ghost use Rattle.std.specs.Prelude.{ℕ, ◌-◌, ◌^◌, ◌<◌, Option, List, length};
ghost use Rattle.pg_io.specs.Source.{Reads};

/// The answer of a read.
#[derive(Clone, Copy, Debug, PartialEq, Eq)]
pub enum Took {
    /// So many bytes stand at the front of the buffer, at least one.
    Bytes(u32),
    /// Nothing is left.
    End,
    /// The call failed, and gave nothing.
    Failed,
}

/// Where bytes come from.
pub trait Source {
    /// The bytes that are left to read, where the source tells them.
    ghost left: { Self → Option (List ℕ) };

    /// How many calls have failed. It never falls.
    ghost faults: { Self → ℕ };

    /// Reads some bytes into the front of `buf`. It answers `End` only where nothing is left, and `Failed` only
    /// where the count of faults rises.
    fn read(&mut self, buf: &mut [u8]) -> Took
        requires room { 0 < length buf.old }
        requires countable { faults self.old < 2 ^ 64 - 1 }
        ensures { Reads result buf.new (left self.old) (left self.new) (faults self.old) (faults self.new) };
}
