ghost use Rattle.std.specs.Prelude.{◌≡◌, length, nat_lt};
ghost use Rattle.pg_faults.specs.Answers.{Judges};
ghost use Rattle.pg_text.specs.FormFaults.{is_out_of_order as is_out_of_order_of, no_lines_above};
ghost use Rattle.pg_text.specs.Texts.{line_judgement, has_ended_by};

use pg_drafting::Drafting;
use pg_faults::LineError;
use pg_forms::{Kind, line_of};
use pg_lines::Words;
use pg_perm::{Draft, Rule};
use std::alloc::Global;
use std::marker::Model;

/// The most words that a line has.
const WORD_LIMIT: usize = 80;

/// The lines of a text that were read. Contracts see the kind of the last one, and what all of them declare.
#[derive(Drop)]
pub struct Reader {
    kind: Option<Kind>,
    drafting: Drafting,
}

impl Model for Reader {
    ghost use Rattle.pg_drafting.specs.Draft.{draft_of};
    ghost use Rattle.pg_text.specs.FormFaults.{LinesAbove};

    ghost Value = { LinesAbove };

    ghost view = { λ r. record { kind = r.kind; draft = draft_of r.drafting } };
}

/// Whether a line has more words than any may.
fn is_long(words: &Words) -> bool
    ensures { result ≡ nat_lt 80 (length words.now) }
{
    let mut left = words.again();
    for _ in 0..WORD_LIMIT {
        let Some((_, rest)) = left.first() else {
            return false;
        };
        left = rest;
    }
    left.first().is_some()
}

/// Whether line `number` may not be of this kind, below a line of the kind `above`.
fn is_out_of_order(number: u32, above: Option<Kind>, kind: Kind) -> bool
    ensures { result ≡ is_out_of_order_of number above kind }
{
    if number == 1 {
        return !kind.is_protocol();
    }
    match above {
        None => kind.is_protocol(),
        Some(above) => kind.is_protocol() || kind.rank() < above.rank(),
    }
}

impl Reader {
    /// No lines.
    pub fn new(alloc: Global) -> Reader
        ensures { result ≡ no_lines_above }
    {
        Reader {
            kind: None,
            drafting: Drafting::new(alloc),
        }
    }

    /// Takes in the next line, whose number is `number`, or says which of the rules F1 to F5 it breaks first.
    pub fn with_line(
        self,
        alloc: Global,
        number: u32,
        bytes: &[u8],
    ) -> Result<Reader, LineError<Rule>>
        ensures { Judges result (line_judgement self number bytes.now) }
    {
        let words = Words::of(bytes);
        let Some(line) = line_of(&words) else {
            return Err(LineError::Breaks(Rule::F1));
        };
        let kind = line.kind();
        if is_out_of_order(number, self.kind, kind) {
            return Err(LineError::Breaks(Rule::F2));
        }
        let Reader { mut drafting, .. } = self;
        drafting.add_line(alloc, number, line)?;
        if is_long(&words) {
            return Err(LineError::Breaks(Rule::F5));
        }
        Ok(Reader {
            kind: Some(kind),
            drafting,
        })
    }

    /// Whether the last line is the end line.
    pub fn has_ended(&self) -> bool
        ensures { result ≡ has_ended_by self.now }
    {
        match self.kind {
            Some(kind) => kind.is_end(),
            None => false,
        }
    }

    pub fn into_draft(self) -> Draft
        ensures { result ≡ self.draft }
    {
        let Reader { kind: _, drafting } = self;
        drafting.into_draft()
    }
}
