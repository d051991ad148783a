ghost use Rattle.std.specs.Prelude.{◌≡◌};
ghost use Rattle.pg_perm.specs.Rules.{rule_name};

/// A rule that a line can break. F1 to F6 are of the form of a text and S1 to S19 of the shape of its protocol, which docs/TEXT.md states;
/// C1 to C5 are of a script, which docs/SCRIPTS.md states.
#[derive(Clone, Copy, Debug, PartialEq, Eq)]
pub enum Rule {
    F1,
    F2,
    F3,
    F4,
    F5,
    F6,
    S1,
    S2,
    S3,
    S4,
    S5,
    S6,
    S7,
    S8,
    S9,
    S10,
    S11,
    S12,
    S13,
    S14,
    S15,
    S16,
    S17,
    S18,
    S19,
    C1,
    C2,
    C3,
    C4,
    C5,
}

impl Rule {
    /// The name that is printed.
    pub fn name(self) -> &'static str
        ensures { result.now ≡ rule_name self }
    {
        match self {
            Rule::F1 => "F1",
            Rule::F2 => "F2",
            Rule::F3 => "F3",
            Rule::F4 => "F4",
            Rule::F5 => "F5",
            Rule::F6 => "F6",
            Rule::S1 => "S1",
            Rule::S2 => "S2",
            Rule::S3 => "S3",
            Rule::S4 => "S4",
            Rule::S5 => "S5",
            Rule::S6 => "S6",
            Rule::S7 => "S7",
            Rule::S8 => "S8",
            Rule::S9 => "S9",
            Rule::S10 => "S10",
            Rule::S11 => "S11",
            Rule::S12 => "S12",
            Rule::S13 => "S13",
            Rule::S14 => "S14",
            Rule::S15 => "S15",
            Rule::S16 => "S16",
            Rule::S17 => "S17",
            Rule::S18 => "S18",
            Rule::S19 => "S19",
            Rule::C1 => "C1",
            Rule::C2 => "C2",
            Rule::C3 => "C3",
            Rule::C4 => "C4",
            Rule::C5 => "C5",
        }
    }
}

/// A line, counted from 1, and a rule that it breaks.
#[derive(Clone, Copy, Debug, PartialEq, Eq)]
pub struct Fault {
    pub line: u32,
    pub rule: Rule,
}
