ghost use Rattle.std.specs.Prelude.{◌≡◌, refl};
ghost use Rattle.pg_options.specs.Names as names;

use pg_perm::Vocabulary;

/// The name of a command, which is the first word.
#[derive(Clone, Copy, Debug, PartialEq, Eq)]
pub enum CommandName {
    Check,
    Atomic,
    Compile,
    Run,
    Drill,
}

/// An option of a command.
#[derive(Clone, Copy, Debug, PartialEq, Eq)]
pub enum OptionName {
    Mode,
    Seed,
    Cores,
    Blocks,
    Ops,
}

impl Vocabulary for CommandName {
    ghost all = { names.command_names };

    ghost word = { names.command_word };

    fn all() -> &'static [CommandName] {
        &[
            CommandName::Check,
            CommandName::Atomic,
            CommandName::Compile,
            CommandName::Run,
            CommandName::Drill,
        ]
    }

    fn word(self) -> &'static str {
        self.name()
    }

    ghost listed = { names.command_names_listed };

    ghost apart = { refl };
}

impl Vocabulary for OptionName {
    ghost all = { names.option_names };

    ghost word = { names.option_word };

    fn all() -> &'static [OptionName] {
        &[
            OptionName::Mode,
            OptionName::Seed,
            OptionName::Cores,
            OptionName::Blocks,
            OptionName::Ops,
        ]
    }

    fn word(self) -> &'static str {
        match self {
            OptionName::Mode => "--mode",
            OptionName::Seed => "--seed",
            OptionName::Cores => "--cores",
            OptionName::Blocks => "--blocks",
            OptionName::Ops => "--ops",
        }
    }

    ghost listed = { names.option_names_listed };

    ghost apart = { refl };
}

impl OptionName {
    /// The name without its hyphens.
    pub fn long<'a>(self) -> &'a str
        ensures { result.now ≡ names.long_name self }
    {
        match self {
            OptionName::Mode => "mode",
            OptionName::Seed => "seed",
            OptionName::Cores => "cores",
            OptionName::Blocks => "blocks",
            OptionName::Ops => "ops",
        }
    }

    /// The value that the option has where it isn't given.
    pub fn default<'a>(self) -> &'a str
        ensures { result.now ≡ names.default_of self }
    {
        match self {
            OptionName::Mode => "defer",
            OptionName::Seed => "0",
            OptionName::Cores => "4",
            OptionName::Blocks => "8",
            OptionName::Ops => "1000",
        }
    }

    /// The least number that the option may have.
    pub fn least(self) -> u64
        ensures { result ≡ names.least self }
    {
        match self {
            OptionName::Mode | OptionName::Seed => 0,
            OptionName::Cores | OptionName::Blocks | OptionName::Ops => 1,
        }
    }

    /// The greatest number that the option may have.
    pub fn most(self) -> u64
        ensures { result ≡ names.most self }
    {
        match self {
            OptionName::Mode => 0,
            OptionName::Seed => u64::MAX,
            OptionName::Cores => 32,
            OptionName::Blocks => 64,
            OptionName::Ops => 16_384,
        }
    }

    pub fn is(self, other: OptionName) -> bool
        ensures { result ≡ names.same_option self other }
    {
        self == other
    }
}

impl CommandName {
    /// The word that names the command.
    pub fn name<'a>(self) -> &'a str
        ensures { result.now ≡ names.command_word self }
    {
        match self {
            CommandName::Check => "check",
            CommandName::Atomic => "atomic",
            CommandName::Compile => "compile",
            CommandName::Run => "run",
            CommandName::Drill => "drill",
        }
    }

    /// The options of the command.
    pub fn options(self) -> &'static [OptionName]
        ensures { result.now ≡ names.options_of self }
    {
        match self {
            CommandName::Check | CommandName::Atomic => &[],
            CommandName::Compile => &[OptionName::Mode],
            CommandName::Run => &[OptionName::Mode, OptionName::Seed],
            CommandName::Drill => OptionName::all(),
        }
    }

    pub fn has(self, option: OptionName) -> bool
        ensures { result ≡ names.has_option self option }
    {
        self.options().iter().any(|own| own.is(option))
    }
}
