ghost use Rattle.std.specs.Prelude.{◌≡◌, ◌≤◌, ℕ, List, Some, false, true, map, IfOk, unwrap_or};
ghost use Rattle.clap.specs.Words.{app_of, found_of, first_value, rule_of};
ghost use Rattle.pg_options.specs.declared.names.OptionName.TheVariants as option;
ghost use Rattle.pg_options.specs.Names as names;
ghost use Rattle.pg_options.specs.Options.{Given};
ghost use Rattle.pg_options.specs.Options as spec;
ghost use Rattle.pg_options.specs.Parsers as parsers;

use crate::command::{Command, Drill, Machine, Task};
use crate::names::{CommandName, OptionName};
use crate::rule::{mode_in, number_in};
use clap::error::ErrorKind;
use clap::{Arg, ArgMatches};
use pg_perm::Mode;
use std::alloc::{AllocError, Global};

fn argument<'a>(alloc: Global, option: OptionName) -> Arg<'a>
    ensures rule { rule_of result ≡ parsers.parser_rule option }
    ensures local { result.global ≡ false }
{
    Arg::new(alloc, option.long())
        .long(option.long())
        .default_value(option.default())
}

fn bare_parser<'a>(alloc: Global, command: CommandName) -> clap::Command<'a>
    ensures { app_of result ≡ parsers.bare_parser command }
{
    clap::Command::new(alloc, command.name()).disable_help_flag(true)
}

/// A parser of the options of a command, each with its default.
fn parser<'a>(alloc: Global, command: CommandName) -> Result<clap::Command<'a>, AllocError>
    ensures { IfOk result (λ p. app_of p ≡ parsers.parser_of command) }
{
    let mut parser = bare_parser(alloc, command);
    let mut rest = command.options();
    while let Some((option, others)) = rest.split_first() {
        parser = parser.arg(argument(alloc, *option))?;
        rest = others;
    }
    Ok(parser)
}

/// What `clap` finds in words that are right.
pub fn parse<'a>(
    alloc: Global,
    command: CommandName,
    words: &'a [String],
) -> Result<ArgMatches<'a>, AllocError>
    requires { (gs : List Given) × parsers.AreRight command (spec.word_bytes words.now) gs }
    ensures { IfOk result (λ m. (gs : List Given) → parsers.AreRight command (spec.word_bytes words.now) gs
        → parsers.HasValues command gs (found_of m)) }
{
    match parser(alloc, command)?.try_get_matches_from(words) {
        Ok(matches) => Ok(matches),
        Err(error) => match error.kind() {
            ErrorKind::OutOfMemory => Err(AllocError),
            _ => unreachable!(),
        },
    }
}

fn value<'a>(matches: &ArgMatches<'a>, option: OptionName) -> &'a str
    requires { (text : List ℕ) × (first_value (found_of matches.now) (names.long_name option) ≡ Some text) }
    ensures { first_value (found_of matches.now) (names.long_name option) ≡ Some result.now }
{
    matches.get_str(option.long()).unwrap()
}

fn number(matches: &ArgMatches<'_>, option: OptionName) -> u64
    requires { (text : List ℕ) × (first_value (found_of matches.now) (names.long_name option) ≡ Some text) }
    ensures exact { (text : List ℕ) → first_value (found_of matches.now) (names.long_name option) ≡ Some text
        → result ≡ unwrap_or (spec.number_in option text) 0 }
    ensures most { result ≤ names.most option }
{
    number_in(option, value(matches, option)).unwrap_or(0)
}

fn mode(matches: &ArgMatches<'_>) -> Mode
    requires { (text : List ℕ) × (first_value (found_of matches.now) (names.long_name option.Mode) ≡ Some text) }
    ensures { (text : List ℕ) → first_value (found_of matches.now) (names.long_name option.Mode) ≡ Some text
        → result ≡ unwrap_or (spec.mode_in text) Mode.Defer }
{
    mode_in(value(matches, OptionName::Mode)).unwrap_or(Mode::Defer)
}

fn drill(matches: &ArgMatches<'_>) -> Drill
    requires { (gs : List Given) × parsers.HasValues CommandName.Drill gs (found_of matches.now) }
    ensures { (gs : List Given) → parsers.HasValues CommandName.Drill gs (found_of matches.now)
        → result ≡ spec.drill_with gs }
{
    Drill {
        mode: mode(matches),
        seed: number(matches, OptionName::Seed),
        cores: number(matches, OptionName::Cores) as u32,
        blocks: number(matches, OptionName::Blocks) as u32,
        ops: number(matches, OptionName::Ops) as u32,
    }
}

/// The command of this name with the values that were found.
pub fn read(command: CommandName, matches: &ArgMatches<'_>) -> Command
    requires { (gs : List Given) × parsers.HasValues command gs (found_of matches.now) }
    ensures { (gs : List Given) → parsers.HasValues command gs (found_of matches.now)
        → result ≡ spec.command_with command gs }
{
    match command {
        CommandName::Check => Command::Text(Task::Check),
        CommandName::Atomic => Command::Text(Task::Run(Machine::Atomic)),
        CommandName::Compile => Command::Text(Task::Compile(mode(matches))),
        CommandName::Run => {
            let seed = number(matches, OptionName::Seed);
            Command::Text(Task::Run(Machine::Controllers(mode(matches), seed)))
        }
        CommandName::Drill => Command::Drill(drill(matches)),
    }
}
