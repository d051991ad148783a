ghost use Rattle.std.specs.Prelude.{◌≡◌, ℕ};
ghost use Rattle.pg_lines.specs.Lines.{words_of};
ghost use Rattle.pg_script.specs.Reading as forms;
ghost use Rattle.pg_script.specs.ScriptFaults as faults;

use crate::numbers::number_of;
use crate::statement::{OpForm, Statement};
use pg_lines::Words;

/// What an operation without a value is, by its word.
fn plain_form(word: &[u8]) -> Option<OpForm>
    ensures { result ≡ forms.plain_form word.now }
{
    if word == b"load".as_slice() {
        Some(OpForm::Load)
    } else if word == b"evict".as_slice() {
        Some(OpForm::Evict)
    } else {
        None
    }
}

/// What an operation with a value is, by its word and the value.
fn valued_form(word: &[u8], value: &[u8]) -> Option<OpForm>
    ensures { result ≡ forms.valued_form word.now value.now }
{
    if word == b"store".as_slice() {
        Some(OpForm::Store(number_of(value)?))
    } else {
        None
    }
}

fn op_form(word: &[u8], words: &Words) -> Option<OpForm>
    ensures { result ≡ forms.op_form word.now words.now }
{
    let Some((value, rest)) = words.first() else {
        return plain_form(word);
    };
    match rest.first() {
        None => valued_form(word, value),
        Some(_) => None,
    }
}

fn op_of_words(core: &[u8], word: &[u8], block: &[u8], words: &Words) -> Option<Statement>
    ensures { result ≡ forms.op_of_words core.now word.now block.now words.now }
{
    let core = number_of(core)?;
    let block = number_of(block)?;
    let form = op_form(word, words)?;
    Some(Statement::Op { core, block, form })
}

fn op_line(words: &Words) -> Option<Statement>
    ensures { result ≡ forms.op_line words.now }
{
    let (core, rest) = words.first()?;
    let (word, rest) = rest.first()?;
    let (block, rest) = rest.first()?;
    op_of_words(core, word, block, &rest)
}

/// The number of a line that has no other word after its first.
fn count_of(words: &Words) -> Option<u128>
    ensures { result ≡ forms.count_of words.now }
{
    let (count, rest) = words.first()?;
    match rest.first() {
        None => number_of(count),
        Some(_) => None,
    }
}

fn done_line(words: &Words) -> Option<Statement>
    ensures { result ≡ forms.done_line words.now }
{
    match words.first() {
        None => Some(Statement::Done),
        Some(_) => None,
    }
}

fn statement_of(words: &Words) -> Option<Statement>
    ensures { result ≡ forms.statement_of words.now }
{
    let (word, rest) = words.first()?;
    if word == b"cores".as_slice() {
        Some(Statement::Cores(count_of(&rest)?))
    } else if word == b"blocks".as_slice() {
        Some(Statement::Blocks(count_of(&rest)?))
    } else if word == b"op".as_slice() {
        op_line(&rest)
    } else if word == b"done".as_slice() {
        done_line(&rest)
    } else {
        None
    }
}

/// What line `number` says, where it is in a form for its place.
pub fn statement_at(number: u32, line: &[u8]) -> Option<Statement>
    ensures { result ≡ faults.statement_at number line.now }
{
    let statement = statement_of(&Words::of(line))?;
    if statement.is_in_place(number) {
        Some(statement)
    } else {
        None
    }
}
