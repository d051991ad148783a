ghost use Rattle.std.specs.Prelude.{◌≡◌, IsTrue};
ghost use Rattle.std.specs.List.{list_all};
ghost use Rattle.pg_perm.specs.Names.{is_state_name};
ghost use Rattle.pg_lines.specs.Lines.{first_rest};

use pg_lines::Words;
use pg_perm::Word;
use std::marker::Model;

/// The names of states that are still to be read. Contracts see the list of them.
#[derive(Debug, Drop)]
pub struct StateNames<'a> {
    words: Words<'a>,
}

impl<'a> Model for StateNames<'a> {
    ghost use Rattle.std.specs.Prelude.{List, ℕ, IsTrue};
    ghost use Rattle.std.specs.List.{list_all};
    ghost use Rattle.pg_perm.specs.Names.{is_state_name};

    ghost Value = { List (List ℕ) };

    ghost view = { λ s. s.words };

    ghost invariant = { λ s. IsTrue (list_all is_state_name s.words) };
}

impl<'a> StateNames<'a> {
    pub fn new(words: Words<'a>) -> StateNames<'a>
        requires { IsTrue (list_all is_state_name words) }
        ensures { result ≡ words.entry }
    {
        StateNames { words }
    }

    /// The same names, to be read a second time.
    pub fn again(&self) -> StateNames<'a>
        ensures { result ≡ self.now }
    {
        StateNames {
            words: self.words.again(),
        }
    }

    /// The next name, and the names after it.
    pub fn first(&self) -> Option<(Word, StateNames<'a>)>
        ensures { result ≡ first_rest self.now }
    {
        let (name, rest) = self.words.first()?;
        Some((Word::new(name), StateNames { words: rest }))
    }
}
