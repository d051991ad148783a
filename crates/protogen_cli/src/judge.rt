ghost use Rattle.std.specs.Prelude.{◌≡◌, ℕ, ◌-◌, ◌^◌, ◌<◌, ◌≤◌, List, IfOk};
ghost use Rattle.pg_io.specs.ReadAll.{GaveCount};
ghost use Rattle.protogen_cli.specs.Statuses.{IsOfText};
ghost use Rattle.protogen_cli.specs.Replies.{answer_to_input};
ghost use Rattle.protogen_cli.specs.Ends.{Tells, IsReadToEnd};
ghost use Rattle.protogen_cli.specs.Judging.{RisesAtFault};

use crate::report::Report;
use crate::status::Status;
use crate::words::Command;
use pg_io::{ReadAllError, Source, read_all};
use std::alloc::{AllocError, Global};

/// The most bytes that an input may have.
const MOST_BYTES: u32 = 1_048_576;

/// Why there is nothing to report.
#[derive(Debug, Drop)]
pub enum NoReport {
    /// The source failed.
    Fault,
    /// Memory has run out.
    Memory,
}

impl From<AllocError> for NoReport {
    ghost use Rattle.protogen_cli.specs.declared.judge.NoReport.TheVariants as none;

    ghost from_gives = { λ _ e. e ≡ none.Memory };

    fn from(_error: AllocError) -> Self {
        NoReport::Memory
    }
}

/// Reads all that is left, and does what the command asks of it.
pub fn judge<S: Source>(alloc: Global, command: Command, source: &mut S) -> Result<Report, NoReport>
    requires { S.faults source.old < 2 ^ 64 - 1 }
    ensures reply { IfOk result (λ report. (input : List ℕ)
        × Tells (S.left source.old) input × (report ≡ answer_to_input command input)) }
    ensures whole { IfOk result (λ report. IsOfText report.status → IsReadToEnd (S.left source.old) (S.left source.new)) }
    ensures too_long { IfOk result (λ report. report.status ≡ Status.TooLong
        → GaveCount (S.left source.old) (S.left source.new) (λ count. count ≡ 1048577)) }
    ensures taken { GaveCount (S.left source.old) (S.left source.new) (λ count. count ≤ 1048577) }
    ensures faults { RisesAtFault result (S.faults source.old) (S.faults source.new) }
{
    match read_all(alloc, source, MOST_BYTES) {
        Ok(input) => Ok(Report::on_input(alloc, command, &input)?),
        Err(ReadAllError::TooLong) => Ok(Report::too_long(alloc)?),
        Err(ReadAllError::Fault) => Err(NoReport::Fault),
        Err(ReadAllError::Memory) => Err(NoReport::Memory),
    }
}
