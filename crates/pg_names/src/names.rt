//! The type `Names`, and what adding a text to it answers.
ghost use Rattle.std.specs.Prelude.{◌≡◌, ◌<◌, ◌↔◌, ℕ, List, [], ◌∷◌, ◌++◌, length, slice_get, Some, None, IsTrue, IsSome, IsNone, IfSome, IfOk, OnOk, OnErr, Contains, bytes_eq};
ghost use Rattle.std.specs.List.{IsDistinct};
ghost use Rattle.pg_names.specs.Number.{number_of, with_name};
ghost use Rattle.pg_names.specs.Added.{Adds, number_in};

use indexmap::IndexSet;
use std::alloc::{AllocError, Global};
use std::marker::Model;

/// Texts that are all different, in the order in which they were first added. There are at most 65,535.
///
/// The number of a text is its place in that order, from 0 on. It never changes, since no text is taken out.
#[derive(Drop)]
pub struct Names {
    texts: IndexSet<String>,
}

impl Model for Names {
    ghost use Rattle.std.specs.Prelude.{List, ℕ, map};
    ghost use Rattle.std.specs.String.{string_bytes};
    ghost use Rattle.pg_names.specs.Number.{AreNames};

    ghost Value = { List (List ℕ) };

    ghost view = { λ names. map string_bytes names.texts.keys };

    ghost invariant = { λ names. AreNames (map string_bytes names.texts.keys) };
}

/// What adding a text answered. Either way the number is that of the text from now on.
#[derive(Clone, Copy, Debug, PartialEq, Eq)]
pub enum Added {
    /// The text was there already, under this number, and nothing has changed.
    There(u16),
    /// The text was not there, and now stands last, under this number.
    New(u16),
}

impl Names {
    /// No names yet. This takes no memory: the first new name does, from `alloc`.
    pub fn new(alloc: Global) -> Names
        ensures { result ≡ [] }
    {
        Names {
            texts: IndexSet::new(alloc),
        }
    }

    /// Adds `text`, unless it is there. Only a new text takes memory, so only then can it be refused, and then nothing has changed.
    #[tactic(auto, using(crate::proofs::Numbers::numbers))]
    pub fn add(&mut self, text: &str) -> Result<Added, AllocError>
        requires { length self.old < 65535 }
        ensures added { IfOk result (λ added. Adds self.old text.now added self.new) }
        ensures unchanged { OnErr result (self.new ≡ self.old) }
        ensures refused_only_if_new { OnErr result (number_of self.old text.now ≡ None) }

        // These follow, for callers that need not know whether the text was there.
        ensures names { OnOk result (self.new ≡ with_name self.old text.now) }
        ensures number { IfOk result (λ added. number_of self.new text.now ≡ Some (number_in added)) }
        ensures within { IfOk result (λ added. number_in added < length self.new) }
        ensures kept { (name : List ℕ) (n : ℕ) → number_of self.old name ≡ Some n → number_of self.new name ≡ Some n }
    {
        match self.find(text) {
            Some(number) => Ok(Added::There(number)),
            None => {
                let number = self.len();
                self.push(text)?;
                Ok(Added::New(number))
            }
        }
    }

    // Puts a text that is not there last.
    fn push(&mut self, text: &str) -> Result<(), AllocError>
        requires new { number_of self.old text.now ≡ None }
        requires room { length self.old < 65535 }
        ensures last { OnOk result (self.new ≡ self.old ++ text.now ∷ []) }
        ensures unchanged { OnErr result (self.new ≡ self.old) }
    {
        let name = String::from_str(*self.texts.allocator(), text)?;
        self.texts.insert(name)?;
        Ok(())
    }

    /// The number of `text`, if it is there.
    pub fn find(&self, text: &str) -> Option<u16>
        ensures number { result ≡ number_of self.now text.now }
        ensures none { IsNone result ↔ ¬ Contains self.now text.now }
        ensures found { IsSome result ↔ Contains self.now text.now }
        ensures within { IfSome result (λ n. n < length self.now) }
    {
        let place = self.texts.get_index_of(text)?;
        Some(place as u16)
    }

    /// The text under the number `n`.
    pub fn text(&self, n: u16) -> &str
        requires { n < length self.now }
        ensures { slice_get self.now n ≡ Some result.now }
    {
        self.texts[usize::from(n)].as_str()
    }

    /// How many names there are. This is also the number that the next new name gets.
    pub fn len(&self) -> u16
        ensures len { result ≡ length self.now }
        ensures distinct { IsDistinct bytes_eq self.now }
    {
        self.texts.len() as u16
    }

    /// Whether there are no names.
    pub fn is_empty(&self) -> bool
        ensures { IsTrue result ↔ (length self.now ≡ 0) }
    {
        self.texts.is_empty()
    }
}
