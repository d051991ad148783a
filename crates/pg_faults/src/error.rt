use std::alloc::AllocError;

/// Why a line, or lines, could not be taken in.
#[derive(Debug, Drop)]
pub enum LineError<F> {
    /// The first rule that the line breaks, or the first fault of the lines.
    Breaks(F),
    Memory,
}

impl<F> From<AllocError> for LineError<F> {
    ghost use Rattle.std.specs.Prelude.{◌≡◌};
    ghost use Rattle.pg_faults.specs.declared.error.LineError.TheVariants.{Memory};

    ghost from_gives = { λ _ e. e ≡ Memory };

    fn from(_error: AllocError) -> LineError<F> {
        LineError::Memory
    }
}
