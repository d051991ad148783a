ghost use Rattle.std.specs.Prelude.{◌≡◌, IsTrue};
ghost use Rattle.pg_forms.specs.Pairs.{are_pairs, pairs_in, first_pair};

use pg_lines::Words;
use pg_perm::Word;
use std::marker::Model;

/// The replies and final states of a core line that are still to be read, in turn. Contracts see the list of pairs of their names.
#[derive(Debug, Drop)]
pub struct NamePairs<'a> {
    words: Words<'a>,
}

impl<'a> Model for NamePairs<'a> {
    ghost use Rattle.std.specs.Prelude.{List, ℕ, IsTrue};
    ghost use Rattle.pg_forms.specs.Pairs.{are_pairs, pairs_in};

    ghost Value = { List (List ℕ × List ℕ) };

    ghost view = { λ p. pairs_in p.words };

    ghost invariant = { λ p. IsTrue (are_pairs p.words) };
}

impl<'a> NamePairs<'a> {
    pub fn new(words: Words<'a>) -> NamePairs<'a>
        requires { IsTrue (are_pairs words) }
        ensures { result ≡ pairs_in words.entry }
    {
        NamePairs { words }
    }

    /// The same pairs, to be read a second time.
    pub fn again(&self) -> NamePairs<'a>
        ensures { result ≡ self.now }
    {
        NamePairs {
            words: self.words.again(),
        }
    }

    /// The next reply, its final state, and the pairs after them.
    pub fn first(&self) -> Option<(Word, Word, NamePairs<'a>)>
        ensures { result ≡ first_pair self.now }
    {
        let (reply, rest) = self.words.first()?;
        let Some((fin, rest)) = rest.first() else {
            unreachable!()
        };
        Some((Word::new(reply), Word::new(fin), NamePairs { words: rest }))
    }
}
