ghost use Rattle.std.specs.Prelude.{◌≡◌, ◌<◌, length, IfOk};
ghost use Rattle.pg_perm.specs.declared.fault.Fault.{Fault};
ghost use Rattle.pg_perm.specs.Drafts.{IsWellFormed};
ghost use Rattle.pg_text.specs.FormFaults.{IsFormFault};
ghost use Rattle.pg_text.specs.Texts.{reading, IsText};
ghost use Rattle.pg_text.specs.Answers.{Gives};

use crate::error::TextError;
use crate::reader::Reader;
use pg_lines::split_line;
use pg_perm::{Draft, Fault, Rule};
use std::alloc::Global;

/// Gives the text of a protocol, up to its first `end` line. Nothing after that line is judged.
///
/// The answer is the draft of the text and the place after its `end` line, counted in bytes. docs/TEXT.md has the rules, of which the first
/// that the first wrong line breaks is the fault.
pub fn read(alloc: Global, bytes: &[u8]) -> Result<(Draft, u32), TextError>
    requires { length bytes.now < 4294967295 }
    ensures exact { Gives result (reading bytes.now) }
    ensures fault { (f : Fault) → result ≡ Err (TextError.Form f) → IsFormFault bytes.now f }
    ensures text { IfOk result (λ x. IsText bytes.now x.0 x.1) }
    ensures well_formed { IfOk result (λ x. IsWellFormed x.0) }
{
    read_lines(alloc, bytes)
}

fn read_lines(alloc: Global, bytes: &[u8]) -> Result<(Draft, u32), TextError>
    requires { length bytes.now < 4294967295 }
    ensures exact { Gives result (reading bytes.now) }
{
    let mut reader = Reader::new(alloc);
    let mut before: u32 = 0;
    let mut rest = bytes;
    while let Some((line, behind)) = split_line(rest) {
        let number = before + 1;
        match reader.with_line(alloc, number, line) {
            Ok(more) => reader = more,
            Err(error) => return Err(TextError::at(number, error)),
        }
        if reader.has_ended() {
            let place = (bytes.len() - behind.len()) as u32;
            return Ok((reader.into_draft(), place));
        }
        before = number;
        rest = behind;
    }
    Err(TextError::Form(Fault {
        line: before + 1,
        rule: Rule::F6,
    }))
}
