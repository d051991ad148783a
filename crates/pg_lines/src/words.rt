ghost use Rattle.std.specs.Prelude.{◌≡◌};
ghost use Rattle.std.specs.Option.{option_map};
ghost use Rattle.pg_lines.specs.Lines.{words_of, first_rest};

use crate::cut::cut;
use std::marker::Model;

/// The words of a line that are still to be read. Contracts see the list of them.
#[derive(Debug, Drop)]
pub struct Words<'a> {
    /// From the next word on; none where no word is left.
    rest: Option<&'a [u8]>,
}

impl<'a> Model for Words<'a> {
    ghost use Rattle.std.specs.Prelude.{List, ℕ};
    ghost use Rattle.pg_lines.specs.Lines.{words_left};

    ghost Value = { List (List ℕ) };

    ghost view = { λ w. words_left w.rest };
}

impl<'a> Words<'a> {
    /// The words of a line, which single spaces part.
    pub fn of(line: &'a [u8]) -> Words<'a>
        ensures { result ≡ words_of line.now }
    {
        Words { rest: Some(line) }
    }

    /// The same words, to be read a second time.
    pub fn again(&self) -> Words<'a>
        ensures { result ≡ self.now }
    {
        Words { rest: self.rest }
    }

    /// The next word, and the words after it.
    pub fn first(&self) -> Option<(&'a [u8], Words<'a>)>
        ensures { option_map (λ x. (x.0.now, x.1)) result ≡ first_rest self.now }
    {
        let rest = self.rest?;
        match cut(rest, b' ') {
            None => Some((rest, Words { rest: None })),
            Some((word, tail)) => Some((word, Words { rest: Some(tail) })),
        }
    }
}
