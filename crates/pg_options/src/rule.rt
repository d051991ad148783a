ghost use Rattle.std.specs.Prelude.{◌≡◌, ◌≤◌, ◌<◌, length, List, Some, option_map, IfSome};
ghost use Rattle.pg_options.specs.Names as names;
ghost use Rattle.pg_options.specs.Options.{Given};
ghost use Rattle.pg_options.specs.Options as spec;

use crate::given::first_given;
use crate::names::{CommandName, OptionName};
use pg_perm::{Mode, find_word};
use pg_script::number_of;

/// The mode that a word is.
pub fn mode_in(word: &str) -> Option<Mode>
    ensures { result ≡ spec.mode_in word.now }
{
    find_word(word.as_bytes())
}

fn within(option: OptionName, number: u128) -> Option<u64>
    ensures exact { result ≡ spec.within option number }
{
    if u128::from(option.least()) <= number && number <= u128::from(option.most()) {
        Some(number as u64)
    } else {
        None
    }
}

/// The number that a word is, where the option may have it.
pub fn number_in(option: OptionName, word: &str) -> Option<u64>
    ensures exact { result ≡ spec.number_in option word.now }
    ensures most { IfSome result (λ n. n ≤ names.most option) }
{
    within(option, number_of(word.as_bytes())?)
}

/// Whether the option may have this value.
fn allows(option: OptionName, value: &str) -> bool
    ensures { result ≡ spec.allows option value.now }
{
    match option {
        OptionName::Mode => mode_in(value).is_some(),
        _ => number_in(option, value).is_some(),
    }
}

/// Whether the words give the option, where they are options.
fn is_given(option: OptionName, words: &[String]) -> bool
    ensures { (gs : List Given) → spec.given_in (spec.word_bytes words.now) ≡ Some gs
        → result ≡ spec.is_given option gs }
{
    let mut rest = words;
    while let Some((other, _, after)) = first_given(rest) {
        if other.is(option) {
            return true;
        }
        rest = after;
    }
    false
}

/// Whether the option is one of the command, may have the value, and is not given by the words after it, where they are options.
fn is_right(command: CommandName, option: OptionName, value: &str, after: &[String]) -> bool
    ensures { (gs : List Given) → spec.given_in (spec.word_bytes after.now) ≡ Some gs
        → result ≡ spec.is_right command (record { option = option; value = value.now }) gs }
{
    command.has(option) && allows(option, value) && !is_given(option, after)
}

/// Whether the words are options of the command, with values that they may have, and none is given twice.
pub fn are_options(command: CommandName, words: &[String]) -> bool
    ensures { result ≡ spec.are_options command (spec.given_in (spec.word_bytes words.now)) }
{
    let mut rest = words;
    while let Some((option, value, after)) = first_given(rest) {
        if !is_right(command, option, value, after) {
            return false;
        }
        rest = after;
    }
    rest.is_empty()
}

/// The command that the word names.
pub fn command_name(word: &str) -> Option<CommandName>
    ensures { result ≡ spec.command_name word.now }
{
    find_word(word.as_bytes())
}

fn are_options_of(command: Option<CommandName>, words: &[String]) -> bool
    ensures { result ≡ spec.are_options_of command (spec.word_bytes words.now) }
{
    match command {
        Some(command) => are_options(command, words),
        None => false,
    }
}

/// Whether the words are those of a command: its name, and then options of it in any order, each at most once and with a value that it may
/// have, as `--name VALUE` or as `--name=VALUE`. docs/OPTIONS.md has the options and their values.
pub fn taken(words: &[String]) -> bool
    ensures { result ≡ spec.is_taken (spec.word_bytes words.now) }
{
    match words.split_first() {
        Some((word, rest)) => are_options_of(command_name(word.as_str()), rest),
        None => false,
    }
}
