use pg_perm::Fault;
use thiserror::Error;

/// Why a draft is no protocol.
#[derive(Debug, Drop, Error)]
pub enum ShapeError {
    /// The first line that breaks a rule of the shape, and the first rule that it breaks.
    #[error("line {} breaks {}", .0.line, .0.rule.name())]
    Fault(Fault),
}
