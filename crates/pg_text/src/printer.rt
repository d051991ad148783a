ghost use Rattle.std.specs.Prelude.{◌≡◌, map, IfOk, Ok, length, ◌++◌, ◌≤◌};
ghost use Rattle.std.specs.String.{string_bytes};
ghost use Rattle.pg_lines.specs.Lines.{text_of};
ghost use Rattle.pg_perm.specs.Drafts.{IsWellFormed};
ghost use Rattle.pg_forms.specs.Forms.{spelling};
ghost use Rattle.pg_text.specs.Printing.{draft_text, renumbered_draft};
ghost use Rattle.pg_text.specs.Texts.{reading};

use crate::spelled::Spelled;
use pg_lines::put_line;
use pg_perm::{Draft, Sequence};
use std::alloc::{AllocError, Global};

/// Puts lines of a draft last.
fn put_lines<T: Spelled>(
    alloc: Global,
    text: &mut String,
    draft: &Draft,
    lines: &Sequence<T>,
) -> Result<(), AllocError>
    ensures { IfOk result (λ _. string_bytes text.new ≡ string_bytes text.old ++ text_of (map (λ l. spelling (T.line draft.now l)) lines.now)) }
{
    let mut left = lines.as_slice();
    while let Some((line, rest)) = left.split_first() {
        let mut words = Vec::new(alloc);
        line.put_words(draft, &mut words)?;
        put_line(alloc, text, &words)?;
        left = rest;
    }
    Ok(())
}

/// The text of a draft, of which each line ends with a newline. docs/TEXT.md has the form of its lines.
///
/// It is read as the same draft, with its lines numbered from 1.
pub fn print(alloc: Global, draft: &Draft) -> Result<Vec<u8>, AllocError>
    requires { IsWellFormed draft.now }
    ensures exact { IfOk result (λ text. text.items ≡ draft_text draft.now) }
    ensures read_back { IfOk result (λ text. reading text.items ≡ Ok (renumbered_draft draft.now, length text.items)) }
    ensures short { IfOk result (λ text. length text.items ≤ 1300000) }
{
    let mut text = String::new(alloc);
    put_line(alloc, &mut text, &["protocol", draft.name.as_str()])?;
    put_lines(alloc, &mut text, draft, &draft.caches)?;
    put_lines(alloc, &mut text, draft, &draft.dirs)?;
    put_lines(alloc, &mut text, draft, &draft.messages)?;
    put_lines(alloc, &mut text, draft, &draft.cores)?;
    put_lines(alloc, &mut text, draft, &draft.takes)?;
    put_lines(alloc, &mut text, draft, &draft.rows)?;
    put_line(alloc, &mut text, &["end"])?;
    Ok(text.into_bytes())
}
