ghost use Rattle.std.specs.Prelude.{◌≡◌, IfOk};
ghost use Rattle.pg_options.specs.Options as spec;

use crate::names::CommandName;
use crate::parser::{parse, read};
use crate::rule::{are_options, command_name};
use pg_perm::Mode;
use std::alloc::{AllocError, Global};

/// On what a script is run.
#[derive(Clone, Copy, Debug, PartialEq, Eq)]
pub enum Machine {
    /// On the atomic machine of the protocol, line after line.
    Atomic,
    /// On the controllers that are generated for it, in a mode, on the schedule of a seed.
    Controllers(Mode, u64),
}

/// What is done with a text that is read.
#[derive(Clone, Copy, Debug, PartialEq, Eq)]
pub enum Task {
    /// To judge it.
    Check,
    /// To generate the tables of its controllers.
    Compile(Mode),
    /// To run the script that stands after it.
    Run(Machine),
}

/// A run that is made of a seed, and reads no text.
#[derive(Clone, Copy, Debug, PartialEq, Eq)]
pub struct Drill {
    /// The mode of the controllers.
    pub mode: Mode,
    /// The seed of the script and of the schedule.
    pub seed: u64,
    /// From 1 to 32.
    pub cores: u32,
    /// From 1 to 64.
    pub blocks: u32,
    /// The number of operations, from 1 to 16,384.
    pub ops: u32,
}

/// What the words ask for.
#[derive(Clone, Copy, Debug, PartialEq, Eq)]
pub enum Command {
    /// To read a text, and to do something with it.
    Text(Task),
    /// To run a drill.
    Drill(Drill),
}

/// The command that the words are, if they are one: `taken` says which words are.
pub fn command_of(alloc: Global, words: &[String]) -> Result<Option<Command>, AllocError>
    ensures { IfOk result (λ found. found ≡ spec.command_of (spec.word_bytes words.now)) }
{
    let Some((word, rest)) = words.split_first() else {
        return Ok(None);
    };
    let Some(command) = command_name(word.as_str()) else {
        return Ok(None);
    };
    if !are_options(command, rest) {
        return Ok(None);
    }
    let matches = parse(alloc, command, words)?;
    Ok(Some(read(command, &matches)))
}
