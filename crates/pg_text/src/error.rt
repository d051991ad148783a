ghost use Rattle.std.specs.Prelude.{◌≡◌};
ghost use Rattle.pg_text.specs.declared.error.TextError.TheVariants.{Memory};

use pg_faults::LineError;
use pg_perm::{Fault, Rule};
use std::alloc::AllocError;
use thiserror::Error;

/// Why a text could not be read.
#[derive(Debug, Drop, Error)]
pub enum TextError {
    /// The first line, counted from 1, that breaks a rule of the form, and the first rule that it breaks.
    #[error("line {} breaks {}", .0.line, .0.rule.name())]
    Form(Fault),
    #[error("out of memory")]
    Memory,
}

impl From<AllocError> for TextError {
    ghost from_gives = { λ _ e. e ≡ Memory };

    fn from(_error: AllocError) -> TextError {
        TextError::Memory
    }
}

impl TextError {
    ghost use Rattle.pg_text.specs.Answers.{text_error};

    /// The error of a text whose line of this number could not be taken in.
    pub fn at(line: u32, error: LineError<Rule>) -> TextError
        ensures { result ≡ text_error line error }
    {
        match error {
            LineError::Breaks(rule) => TextError::Form(Fault { line, rule }),
            LineError::Memory => TextError::Memory,
        }
    }
}
