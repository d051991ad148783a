ghost use Rattle.std.specs.Prelude.{◌≡◌};
ghost use Rattle.pg_script.specs.declared.error.ScriptError.TheVariants.{Memory};

use pg_faults::LineError;
use pg_perm::{Fault, Rule};
use std::alloc::AllocError;
use thiserror::Error;

/// Why a script could not be read.
#[derive(Debug, Drop, Error)]
pub enum ScriptError {
    /// The first line, counted from 1 at the script's first line, that breaks a rule, and the first rule that it breaks.
    #[error("line {} breaks {}", .0.line, .0.rule.name())]
    Fault(Fault),
    #[error("out of memory")]
    Memory,
}

impl From<AllocError> for ScriptError {
    ghost from_gives = { λ _ e. e ≡ Memory };

    fn from(_error: AllocError) -> ScriptError {
        ScriptError::Memory
    }
}

impl ScriptError {
    ghost use Rattle.pg_script.specs.Answers.{script_error};

    /// The error of a script whose line of this number could not be taken in.
    pub fn at(line: u32, error: LineError<Rule>) -> ScriptError
        ensures { result ≡ script_error line error }
    {
        match error {
            LineError::Breaks(rule) => ScriptError::Fault(Fault { line, rule }),
            LineError::Memory => ScriptError::Memory,
        }
    }
}
