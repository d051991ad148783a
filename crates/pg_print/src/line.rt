//! Lines of words.
ghost use Rattle.std.specs.Prelude.{◌≡◌, ◌++◌, map, IfOk};
ghost use Rattle.std.specs.String.{string_bytes};
ghost use Rattle.pg_lines.specs.Lines.{text_of};
ghost use Rattle.pg_perm.specs.Words as word;
ghost use Rattle.pg_print.specs.TableText as print;

use pg_lines::put_line;
use std::alloc::{AllocError, Global};

/// Puts a line for each name last, after a word.
pub fn put_names(
    alloc: Global,
    text: &mut String,
    word: &str,
    names: &[String],
) -> Result<(), AllocError>
    ensures { IfOk result (λ _. string_bytes text.new ≡ string_bytes text.old ++ text_of (print.name_lines word.now (map string_bytes names.now))) }
{
    let mut left = names;
    while let Some((name, rest)) = left.split_first() {
        put_line(alloc, text, &[word, name.as_str()])?;
        left = rest;
    }
    Ok(())
}

/// The name with this number.
pub fn name_of(names: &[String], number: usize) -> &str
    ensures { result.now ≡ word.name_of (map string_bytes names.now) number }
{
    match names.get(number) {
        Some(name) => name.as_str(),
        None => "",
    }
}
