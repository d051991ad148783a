ghost use Rattle.std.specs.Prelude.{◌≡◌, ◌<◌, length, option_map};
ghost use Rattle.pg_options.specs.Options as spec;

use crate::names::OptionName;
use pg_perm::find_word;

fn cut(word: &str) -> Option<(&str, &str)>
    ensures { option_map (λ p. (p.0.now, p.1.now)) result ≡ spec.cut word.now }
{
    word.split_once('=')
}

fn option_of(word: &str) -> Option<OptionName>
    ensures { result ≡ spec.option_of word.now }
{
    find_word(word.as_bytes())
}

fn first_by_name<'a>(
    name: &str,
    value: &'a str,
    rest: &'a [String],
) -> Option<(OptionName, &'a str, &'a [String])>
    ensures { option_map spec.parts_of result ≡ spec.first_by_name name.now value.now (spec.word_bytes rest.now) }
{
    Some((option_of(name)?, value, rest))
}

fn first_in_two<'a>(word: &str, rest: &'a [String]) -> Option<(OptionName, &'a str, &'a [String])>
    ensures { option_map spec.parts_of result ≡ spec.first_in_two word.now (spec.word_bytes rest.now) }
{
    let (value, after) = rest.split_first()?;
    first_by_name(word, value.as_str(), after)
}

fn first_of<'a>(word: &'a str, rest: &'a [String]) -> Option<(OptionName, &'a str, &'a [String])>
    ensures { option_map spec.parts_of result ≡ spec.first_by_cut (spec.cut word.now) word.now (spec.word_bytes rest.now) }
{
    match cut(word) {
        Some((name, value)) => first_by_name(name, value, rest),
        None => first_in_two(word, rest),
    }
}

/// The first option of the words with its value, and the words after it.
pub fn first_given(words: &[String]) -> Option<(OptionName, &str, &[String])>
    ensures parts { option_map spec.parts_of result ≡ spec.first_given (spec.word_bytes words.now) }
{
    let (word, rest) = words.split_first()?;
    first_of(word.as_str(), rest)
}
