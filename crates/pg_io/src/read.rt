ghost use Rattle.std.specs.Prelude.{◌≡◌, ◌-◌, ◌^◌, ◌<◌, ◌≤◌, length, IfOk};
ghost use Rattle.pg_io.specs.ReadAll.{GaveAll, TakesUpTo, RiseAtFault};
ghost use Rattle.pg_io.specs.declared.read.ReadAllError.TheVariants.{Memory};

use crate::source::{Source, Took};
use std::alloc::{AllocError, Global};
use thiserror::Error;

/// Why a source was not read to its end.
#[derive(Debug, Drop, Error)]
pub enum ReadAllError {
    /// The source failed.
    #[error("the input can't be read")]
    Fault,
    /// The source has more bytes than the limit.
    #[error("the input is too long")]
    TooLong,
    /// Memory has run out.
    #[error("out of memory")]
    Memory,
}

impl From<AllocError> for ReadAllError {
    ghost from_gives = { λ _ e. e ≡ Memory };

    fn from(_: AllocError) -> Self {
        ReadAllError::Memory
    }
}

/// The most bytes that one call of a source is asked for.
const PIECE: usize = 65536;

/// Reads all that is left, if that is at most `limit` bytes. Answers `TooLong` as soon as one byte more than that has
/// been taken, `Fault` as soon as the source fails, and `Memory` where no room is left to store a piece. After each
/// of these the source goes on after what was taken.
pub fn read_all<S: Source>(
    alloc: Global,
    source: &mut S,
    limit: u32,
) -> Result<Vec<u8>, ReadAllError>
    requires { S.faults source.old < 2 ^ 64 - 1 }

    ensures within { IfOk result (λ all. length all.items ≤ limit) }
    ensures all { IfOk result (λ all. GaveAll (S.left source.old) (S.left source.new) all.items) }

    ensures taken { TakesUpTo limit result (S.left source.old) (S.left source.new) }
    ensures faults { RiseAtFault result (S.faults source.old) (S.faults source.new) }
{
    let mut buffer = [0u8; PIECE];
    let mut all = Vec::new(alloc);
    let mut room = limit as u64 + 1;
    loop {
        let piece = &mut buffer[..room.min(PIECE as u64) as usize];
        match source.read(piece) {
            Took::Bytes(count) => {
                room -= count as u64;
                if room == 0 {
                    return Err(ReadAllError::TooLong);
                }
                all.extend_from_slice(&piece[..count as usize])?;
            }
            Took::End => return Ok(all),
            Took::Failed => return Err(ReadAllError::Fault),
        }
    }
}
