ghost use Rattle.std.specs.Prelude.{◌≡◌, false};
ghost use Rattle.std.specs.Option.{option_map_or};
ghost use Rattle.pg_script.specs.ScriptFaults as faults;

/// What a line of a script says. Its numbers have up to 20 digits.
#[derive(Clone, Copy, Debug, PartialEq, Eq)]
pub enum Statement {
    /// How many cores there are.
    Cores(u128),
    /// How many blocks there are.
    Blocks(u128),
    Op {
        core: u128,
        block: u128,
        form: OpForm,
    },
    Done,
}

/// What a core does with a block, and the value that a store writes.
#[derive(Clone, Copy, Debug, PartialEq, Eq)]
pub enum OpForm {
    Load,
    Store(u128),
    Evict,
}

impl Statement {
    /// Whether line `number` may be of this form.
    pub fn is_in_place(self, number: u32) -> bool
        ensures { result ≡ faults.is_in_place number self }
    {
        match self {
            Statement::Cores(_) => number == 1,
            Statement::Blocks(_) => number == 2,
            Statement::Op { .. } | Statement::Done => number > 2,
        }
    }

    pub fn is_op(self) -> bool
        ensures { result ≡ faults.is_op self }
    {
        matches!(self, Statement::Op { .. })
    }

    pub fn is_done(self) -> bool
        ensures { result ≡ faults.is_done self }
    {
        matches!(self, Statement::Done)
    }
}

impl OpForm {
    /// Whether a value that is stored is one of 32 bits.
    pub fn has_small_value(self) -> bool
        ensures { result ≡ faults.has_small_value self }
    {
        match self {
            OpForm::Load | OpForm::Evict => true,
            OpForm::Store(value) => value <= u128::from(u32::MAX),
        }
    }
}

/// Whether a line that was read is `done`.
pub fn is_done(statement: Option<Statement>) -> bool
    ensures { result ≡ option_map_or faults.is_done statement false }
{
    match statement {
        Some(statement) => statement.is_done(),
        None => false,
    }
}
