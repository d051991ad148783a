//! The lines of the table of a controller.
ghost use Rattle.std.specs.Prelude.{◌≡◌, ◌<◌, ◌++◌, map, length, IfOk};
ghost use Rattle.std.specs.List.{flat_map};
ghost use Rattle.std.specs.String.{string_bytes};
ghost use Rattle.pg_lines.specs.Lines.{line_text, text_of};
ghost use Rattle.pg_print.specs.TableText as print;

use crate::line::{name_of, put_names};
use crate::wording::{State, put_acts};
use pg_lines::put_line;
use pg_perm::Draft;
use pg_table::{ControllerRow, ControllerTable};
use std::alloc::{AllocError, Global};

fn names_of<D: State>(
    alloc: Global,
    draft: &Draft,
    table: &ControllerTable<D, D::Input, D::Act>,
) -> Result<Vec<String>, AllocError>
    ensures { IfOk result (λ names. map string_bytes names.items ≡ print.names_of D.wording draft.now table.now) }
{
    let mut names = Vec::new(alloc);
    for state in 0..table.states() {
        let name = table.desc(state).name(alloc, draft)?;
        names.push(name)?;
    }
    Ok(names)
}

/// Puts the line of a row for an input last.
fn put_input<D: State>(
    alloc: Global,
    text: &mut String,
    draft: &Draft,
    names: &[String],
    name: &str,
    row: &ControllerRow<D::Input, D::Act>,
    input: D::Input,
) -> Result<(), AllocError>
    ensures { IfOk result (λ _. string_bytes text.new ≡ string_bytes text.old
        ++ line_text (print.input_line D.wording draft.now (map string_bytes names.now) name.now row.now input)) }
{
    let met = D::input_word(alloc, draft, input)?;
    let mut words = Vec::new(alloc);
    words.push(D::row_word())?;
    words.push(name)?;
    words.push(met.as_str())?;
    put_acts::<D>(&mut words, draft, row.acts.as_slice())?;
    words.push("->")?;
    words.push(name_of(names, usize::from(row.next)))?;
    put_line(alloc, text, &words)
}

/// Puts the lines of a row last.
fn put_row<D: State>(
    alloc: Global,
    text: &mut String,
    draft: &Draft,
    names: &[String],
    name: &str,
    row: &ControllerRow<D::Input, D::Act>,
) -> Result<(), AllocError>
    ensures { IfOk result (λ _. string_bytes text.new ≡ string_bytes text.old
        ++ text_of (print.row_lines D.wording draft.now (map string_bytes names.now) name.now row.now)) }
{
    let mut left = row.inputs.as_slice();
    while let Some((input, rest)) = left.split_first() {
        put_input::<D>(alloc, text, draft, names, name, row, *input)?;
        left = rest;
    }
    Ok(())
}

/// Puts the lines of the rows of a state last.
fn put_state<D: State>(
    alloc: Global,
    text: &mut String,
    draft: &Draft,
    names: &[String],
    table: &ControllerTable<D, D::Input, D::Act>,
    state: u16,
) -> Result<(), AllocError>
    requires { state < length table.now }
    ensures { IfOk result (λ _. string_bytes text.new ≡ string_bytes text.old
        ++ text_of (print.lines_at D.wording draft.now (map string_bytes names.now) table.now state)) }
{
    let name = table.desc(state).name(alloc, draft)?;
    for place in 0..table.rows(state) {
        let row = table.row_at(state, place);
        put_row::<D>(alloc, text, draft, names, name.as_str(), row)?;
    }
    Ok(())
}

/// Puts the lines of the rows of all states last.
fn put_states<D: State>(
    alloc: Global,
    text: &mut String,
    draft: &Draft,
    names: &[String],
    table: &ControllerTable<D, D::Input, D::Act>,
) -> Result<(), AllocError>
    ensures { IfOk result (λ _. string_bytes text.new ≡ string_bytes text.old
        ++ text_of (flat_map (print.state_lines D.wording draft.now (map string_bytes names.now)) table.now)) }
{
    for state in 0..table.states() {
        put_state(alloc, text, draft, names, table, state)?;
    }
    Ok(())
}

/// Puts the lines of the table of a controller last.
pub fn put_table<D: State>(
    alloc: Global,
    text: &mut String,
    draft: &Draft,
    table: &ControllerTable<D, D::Input, D::Act>,
) -> Result<(), AllocError>
    ensures { IfOk result (λ _. string_bytes text.new ≡ string_bytes text.old ++ text_of (print.controller_lines D.wording draft.now table.now)) }
{
    let names = names_of(alloc, draft, table)?;
    put_names(alloc, text, D::state_word(), &names)?;
    put_states(alloc, text, draft, &names, table)
}
