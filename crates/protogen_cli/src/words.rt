ghost use Rattle.std.specs.Prelude.{◌≡◌};
ghost use Rattle.protogen_cli.specs.Words as spec;

use pg_perm::Mode;
use pg_script::number_of;

/// On what a script is run.
#[derive(Clone, Copy, Debug, PartialEq, Eq)]
pub enum Machine {
    /// On the atomic machine of the protocol, line after line.
    Atomic,
    /// On the controllers that are generated for it, in a mode, on the schedule of a seed.
    Controllers(Mode, u64),
}

/// What the words ask for.
#[derive(Clone, Copy, Debug, PartialEq, Eq)]
pub enum Command {
    /// To judge a text.
    Check,
    /// To generate the tables of its controllers.
    Compile(Mode),
    /// To run the script that stands after it.
    Run(Machine),
}

fn command_in(word: &str) -> Option<Command>
    ensures { result ≡ spec.command_in word.now }
{
    if word == "check" {
        Some(Command::Check)
    } else if word == "atomic" {
        Some(Command::Run(Machine::Atomic))
    } else {
        None
    }
}

fn mode_in(word: &str) -> Option<Mode>
    ensures { result ≡ spec.mode_in word.now }
{
    if word == "stall" {
        Some(Mode::Stall)
    } else if word == "defer" {
        Some(Mode::Defer)
    } else {
        None
    }
}

fn command_with(word: &str, option: &str, value: &str) -> Option<Command>
    ensures { result ≡ spec.command_with word.now option.now value.now }
{
    if word == "compile" && option == "--mode" {
        Some(Command::Compile(mode_in(value)?))
    } else {
        None
    }
}

/// The number that a word is, where it fits into 64 bits.
fn seed_in(word: &str) -> Option<u64>
    ensures { result ≡ spec.seed_in word.now }
{
    u64::try_from(number_of(word.as_bytes())?).ok()
}

fn controllers(mode: &str, seed: &str) -> Option<Command>
    ensures { result ≡ spec.controllers mode.now seed.now }
{
    Some(Command::Run(Machine::Controllers(mode_in(mode)?, seed_in(seed)?)))
}

fn command_with_two(
    word: &str,
    first: &str,
    mode: &str,
    second: &str,
    seed: &str,
) -> Option<Command>
    ensures { result ≡ spec.command_with_two word.now first.now mode.now second.now seed.now }
{
    if word == "run" && first == "--mode" && second == "--seed" {
        controllers(mode, seed)
    } else {
        None
    }
}

/// The command that the words are, if they are one: a word alone, or one with one option or two, each with its value.
pub fn command_of(words: &[String]) -> Option<Command>
    ensures { result ≡ spec.command_of (spec.word_bytes words.now) }
{
    match words {
        [word] => command_in(word.as_str()),
        [word, option, value] => command_with(word.as_str(), option.as_str(), value.as_str()),
        [word, first, mode, second, seed] => command_with_two(
            word.as_str(),
            first.as_str(),
            mode.as_str(),
            second.as_str(),
            seed.as_str(),
        ),
        _ => None,
    }
}

/// Whether the words are those of a command: `check`, `atomic`, `compile --mode M` or `run --mode M --seed N`, where M is `stall` or `defer` and N a number
/// from 0 to 18,446,744,073,709,551,615 in decimal digits, with no zero before others.
pub fn taken(words: &[String]) -> bool
    ensures { result ≡ spec.is_taken (spec.word_bytes words.now) }
{
    command_of(words).is_some()
}
