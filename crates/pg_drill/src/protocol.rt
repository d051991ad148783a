ghost use Rattle.std.specs.Prelude.{◌≡◌, IfOk};
ghost use Rattle.pg_samples.specs.Drafts as drafts;
ghost use Rattle.pg_text.specs.declared.error.TextError.TheVariants.{Memory};

use pg_samples::MOESI;
use pg_shape::{Protocol, shape};
use pg_text::TextError;
use std::alloc::{AllocError, Global};

/// A text is refused for want of memory alone.
fn only_memory(error: TextError) -> AllocError
    requires { error ≡ Memory }
{
    match error {
        TextError::Form(_) => unreachable!(),
        TextError::Memory => AllocError,
    }
}

/// The protocol MOESI.
pub fn moesi(alloc: Global) -> Result<Protocol, AllocError>
    ensures { IfOk result (λ p. p ≡ drafts.moesi) }
{
    let draft = match pg_text::read(alloc, MOESI.as_bytes()) {
        Ok((draft, _)) => draft,
        Err(error) => return Err(only_memory(error)),
    };
    match shape(draft) {
        Ok(protocol) => Ok(protocol),
        Err(_) => unreachable!(),
    }
}
