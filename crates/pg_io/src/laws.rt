//! What the definitions of this crate give.

ghost use Rattle.pg_io.specs.Memory.{next_call};
ghost use Rattle.pg_io.specs.Pieces.{next_count};
ghost use Rattle.pg_io.specs.ReadAll.{GaveAll, RiseAtFault, TakesUpTo};
ghost use Rattle.pg_io.specs.Sink.{Writes};
ghost use Rattle.pg_io.specs.Source.{Reads};
ghost use Rattle.pg_io.specs.WriteAll.{RiseAtError, WritesAll};
ghost use Rattle.pg_io.specs.declared.read.ReadAllError.TheVariants as reading;
ghost use Rattle.pg_io.specs.declared.sink.Put.TheVariants as put;
ghost use Rattle.pg_io.specs.declared.source.Took.TheVariants as took;
ghost use Rattle.pg_io.specs.declared.write.WriteError.TheVariants as writing;
ghost use Rattle.std.specs.Prelude.{◌≡◌, ◌+◌, ◌-◌, ◌^◌, ◌<◌, ◌≤◌, ◌++◌, ℕ, List, [], ◌∷◌, length, take, Option, Some, None, Ok, Err, Vec};
ghost use Rattle.std.specs.declared.alloc.Global.{Global};

/// A read gives the next bytes, at least one, and the rest is left. At the end nothing was left. A failed call gives nothing, and only it counts as a
/// fault. A source that tells what is left goes on telling it.
pub fn reads_give_the_next_bytes()
    ensures bytes { (count before after : ℕ) (buffer old new : List ℕ) → Reads (took.Bytes count) buffer (Some old) (Some new) before after
        → (old ≡ take count buffer ++ new) × (0 < count) × (count ≤ length buffer) × (after ≡ before) }
    ensures end { (before after : ℕ) (buffer old new : List ℕ) → Reads took.End buffer (Some old) (Some new) before after
        → (old ≡ []) × (new ≡ []) × (after ≡ before) }
    ensures failed { (before after : ℕ) (buffer : List ℕ) (old new : Option (List ℕ)) → Reads took.Failed buffer old new before after
        → (new ≡ old) × (before < after) }
    ensures told { (count before after : ℕ) (buffer old : List ℕ) → Reads (took.Bytes count) buffer (Some old) None before after → ⊥ }
{}

/// A write adds the first bytes, at least one, to what is held. A failed call adds nothing, and only it counts as a fault. A sink that tells what it holds
/// goes on telling it.
pub fn writes_add_the_first_bytes()
    ensures bytes { (count before after : ℕ) (bytes old new : List ℕ) → Writes (put.Bytes count) bytes (Some old) (Some new) before after
        → (new ≡ old ++ take count bytes) × (0 < count) × (count ≤ length bytes) × (after ≡ before) }
    ensures failed { (before after : ℕ) (bytes : List ℕ) (old new : Option (List ℕ)) → Writes put.Failed bytes old new before after
        → (new ≡ old) × (before < after) }
    ensures told { (count before after : ℕ) (bytes old : List ℕ) → Writes (put.Bytes count) bytes (Some old) None before after → ⊥ }
{}

/// Reading all gives all that was left. It takes one byte more than the limit before it answers that there are too many, and never more; and the source
/// failed exactly where the answer is a fault.
pub fn all_that_is_left_is_read()
    ensures all { (bytes old new : List ℕ) → GaveAll (Some old) (Some new) bytes → (bytes ≡ old) × (new ≡ []) }
    ensures within { (limit : ℕ) (all : Vec ℕ Global) (old new : List ℕ) → TakesUpTo limit (Ok all) (Some old) (Some new)
        → length old ≤ length new + limit }
    ensures too_long { (limit : ℕ) (old new : List ℕ) → TakesUpTo limit (Err reading.TooLong) (Some old) (Some new)
        → length old ≡ length new + limit + 1 }
    ensures fault { (before after : ℕ) → RiseAtFault (Err reading.Fault) before after → before < after }
    ensures no_fault { (before after : ℕ) (all : Vec ℕ Global) → RiseAtFault (Ok all) before after → after ≡ before }
    ensures too_long_faults { (before after : ℕ) → RiseAtFault (Err reading.TooLong) before after → after ≡ before }
    ensures memory_faults { (before after : ℕ) → RiseAtFault (Err reading.Memory) before after → after ≡ before }
{}

/// Writing all adds all bytes to what is held, or at a fault those before it, which are not all; and the sink failed exactly where the answer is a fault.
pub fn all_bytes_are_written()
    ensures all { (done : Unit {0}) (bytes old new : List ℕ) → WritesAll (Ok done) bytes (Some old) (Some new) → new ≡ old ++ bytes }
    ensures some { (written : ℕ) (bytes old new : List ℕ) → WritesAll (Err (writing.Fault written)) bytes (Some old) (Some new)
        → (new ≡ old ++ take written bytes) × (written < length bytes) }
    ensures fault { (written before after : ℕ) → RiseAtError (Err (writing.Fault written)) before after → before < after }
    ensures no_fault { (done : Unit {0}) (before after : ℕ) → RiseAtError (Ok done) before after → after ≡ before }
{}

/// The doubles give as many bytes as a piece, the buffer and what is left have, and number their calls from 1.
pub fn pieces_and_calls()
    ensures piece { next_count 10 2 (1 ∷ 2 ∷ 3 ∷ []) ≡ 2 }
    ensures buffer { next_count 1 2 (1 ∷ 2 ∷ 3 ∷ []) ≡ 1 }
    ensures left { next_count 10 5 (1 ∷ 2 ∷ 3 ∷ []) ≡ 3 }
    ensures first { next_call 0 ≡ 1 }
    ensures last { next_call (2 ^ 64 - 1) ≡ 2 ^ 64 - 1 }
{}
