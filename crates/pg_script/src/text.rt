ghost use Rattle.std.specs.Prelude.{◌≡◌, ◌<◌, length, map, IfOk};
ghost use Rattle.pg_perm.specs.declared.fault.Fault.{Fault};
ghost use Rattle.pg_lines.specs.Lines.{lines_of, words_of};
ghost use Rattle.pg_script.specs.Forms.{spelling};
ghost use Rattle.pg_script.specs.ScriptFaults.{IsScriptFault};
ghost use Rattle.pg_script.specs.Texts.{reading, IsScript};
ghost use Rattle.pg_script.specs.Printing.{lines_in, script_text, IsTextOf};
ghost use Rattle.pg_script.specs.Scripts.{IsWithin};
ghost use Rattle.pg_script.specs.Answers.{Gives};

use crate::error::ScriptError;
use crate::reader::Reader;
use crate::reading::statement_at;
use crate::script::Script;
use crate::statement::is_done;
use pg_lines::split_line;
use pg_perm::{Fault, Rule};
use std::alloc::Global;

/// Gives the script that the bytes are.
///
/// Its lines are numbered from 1. docs/SCRIPTS.md has the rules, of which the first that the first wrong line breaks is the fault.
pub fn read(alloc: Global, bytes: &[u8]) -> Result<Script, ScriptError>
    requires { length bytes.now < 4294967295 }
    ensures exact { Gives result (reading bytes.now) }
    ensures fault { (f : Fault) → result ≡ Err (ScriptError.Fault f) → IsScriptFault bytes.now f }
    ensures script { IfOk result (λ s. IsScript bytes.now s) }
    ensures kept { IfOk result (λ s. map words_of (lines_of bytes.now) ≡ map spelling (lines_in s)) }
    ensures text { IfOk result (λ s. IsTextOf bytes.now (script_text s)) }
    ensures within { IfOk result (λ s. IsWithin s) }
{
    read_lines(alloc, bytes)
}

fn read_lines(alloc: Global, bytes: &[u8]) -> Result<Script, ScriptError>
    requires { length bytes.now < 4294967295 }
    ensures { Gives result (reading bytes.now) }
{
    let mut reader = Reader::new(alloc);
    let mut before: u32 = 0;
    let mut rest = bytes;
    while let Some((line, behind)) = split_line(rest) {
        let number = before + 1;
        let statement = statement_at(number, line);
        match reader.with_line(statement) {
            Ok(more) => reader = more,
            Err(error) => return Err(ScriptError::at(number, error)),
        }
        if is_done(statement) {
            if behind.is_empty() {
                return Ok(reader.into_script());
            }
            return Err(ScriptError::Fault(Fault {
                line: number + 1,
                rule: Rule::C5,
            }));
        }
        before = number;
        rest = behind;
    }
    Err(ScriptError::Fault(Fault {
        line: before + 1,
        rule: Rule::C4,
    }))
}
