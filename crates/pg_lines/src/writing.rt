ghost use Rattle.std.specs.Prelude.{◌≡◌, ◌++◌, map, IfOk};
ghost use Rattle.std.specs.String.{string_bytes};
ghost use Rattle.pg_lines.specs.Lines.{line_text};

use std::alloc::{AllocError, Global};

/// Puts a line of words last in a text: single spaces part them, and a newline ends it. Where memory runs out, a part of the line may stand there.
pub fn put_line(alloc: Global, text: &mut String, words: &[&str]) -> Result<(), AllocError>
    ensures { IfOk result (λ _. string_bytes text.new ≡ string_bytes text.old ++ line_text (map (λ w. w.now) words.now)) }
{
    let line = words.join(alloc, " ")?;
    text.push_str(line.as_str())?;
    text.push_str("\n")?;
    Ok(())
}
