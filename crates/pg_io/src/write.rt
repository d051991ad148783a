ghost use Rattle.std.specs.Prelude.{◌-◌, ◌^◌, ◌<◌};
ghost use Rattle.pg_io.specs.WriteAll.{WritesAll, RiseAtError};

use crate::sink::{Put, Sink};
use thiserror::Error;

/// Why not all bytes were written.
#[derive(Debug, Drop, Error)]
pub enum WriteError {
    /// The sink failed after it had taken the first `written` bytes.
    #[error("the output can't be written after {written} bytes")]
    Fault { written: u64 },
}

/// Writes all the bytes, and at none makes no call. Answers `Fault` as soon as the sink fails.
pub fn write_all<K: Sink>(sink: &mut K, bytes: &[u8]) -> Result<(), WriteError>
    requires { K.faults sink.old < 2 ^ 64 - 1 }
    ensures held { WritesAll result bytes.now (K.held sink.old) (K.held sink.new) }
    ensures faults { RiseAtError result (K.faults sink.old) (K.faults sink.new) }
{
    let mut written = 0;
    while written < bytes.len() {
        match sink.write(&bytes[written..]) {
            Put::Bytes(count) => written += count as usize,
            Put::Failed => {
                return Err(WriteError::Fault {
                    written: written as u64,
                });
            }
        }
    }
    Ok(())
}
