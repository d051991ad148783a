ghost use Rattle.std.specs.Prelude.{◌≡◌, [], ◌∷◌, ◌++◌, codes, IfOk};
ghost use Rattle.std.specs.String.{string_bytes};
ghost use Rattle.pg_lines.specs.Lines.{line_text};
ghost use Rattle.pg_perm.specs.Words.{mode_word};
ghost use Rattle.pg_print.specs.TableText as print;

use crate::controller::put_table;
use pg_lines::put_line;
use pg_perm::{Draft, Mode, Vocabulary};
use pg_table::{DirTable, Table, Tables};
use std::alloc::{AllocError, Global};

/// Puts the first line last.
fn put_head(alloc: Global, text: &mut String, draft: &Draft, mode: Mode) -> Result<(), AllocError>
    ensures { IfOk result (λ _. string_bytes text.new ≡ string_bytes text.old ++ line_text (codes "table" ∷ draft.now.name ∷ mode_word mode ∷ [])) }
{
    let mut words = Vec::new(alloc);
    words.push("table")?;
    words.push(draft.name.as_str())?;
    words.push(mode.word())?;
    put_line(alloc, text, &words)
}

/// The text of these tables, whether they are sound or not.
pub fn text_of(
    alloc: Global,
    draft: &Draft,
    mode: Mode,
    cache: &Table,
    home: &DirTable,
) -> Result<Vec<u8>, AllocError>
    ensures { IfOk result (λ text. text.items ≡ print.table_text (record { protocol = draft.now; mode = mode; cache = cache.now; home = home.now })) }
{
    let mut text = String::new(alloc);
    put_head(alloc, &mut text, draft, mode)?;
    put_table(alloc, &mut text, draft, cache)?;
    put_table(alloc, &mut text, draft, home)?;
    put_line(alloc, &mut text, &["end"])?;
    Ok(text.into_bytes())
}

/// The text of the tables of a protocol's controllers, of which each line ends with a newline. docs/TABLES.md has its form.
pub fn table_text(alloc: Global, tables: &Tables) -> Result<Vec<u8>, AllocError>
    ensures { IfOk result (λ text. text.items ≡ print.table_text tables.now) }
{
    text_of(
        alloc,
        tables.protocol().draft(),
        tables.mode(),
        tables.cache(),
        tables.home(),
    )
}
