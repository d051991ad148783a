ghost use Rattle.std.specs.Prelude.{◌≡◌, IsTrue};
ghost use Rattle.std.specs.List.{list_all, list_any};
ghost use Rattle.pg_perm.specs.Names.{is_letter as is_letter_of, is_name_byte as is_name_byte_of, is_underscore, is_name as is_name_of, is_state_name as is_state_name_of};

use arrayvec::ArrayVec;
use std::marker::Model;

/// The most bytes that a name has.
const NAME_LIMIT: usize = 24;

/// A name: 1 to 24 ASCII letters, digits or `_`, of which the first is a letter. It is kept in place, and contracts see its bytes.
#[derive(Debug, Drop, Clone, PartialEq, Eq)]
pub struct Word {
    bytes: ArrayVec<u8, 24>,
}

impl Model for Word {
    ghost use Rattle.std.specs.Prelude.{List, ℕ, IsTrue};
    ghost use Rattle.pg_perm.specs.Names.{is_name};

    ghost Value = { List ℕ };

    ghost view = { λ w. w.bytes.items };

    ghost invariant = { λ w. IsTrue (is_name w.bytes.items) };

    ghost inverse = { λ bytes. record { bytes = record { items = bytes } } };
}

impl Word {
    /// The word of these bytes, which `is_name` has found to be a name.
    pub fn new(bytes: &[u8]) -> Word
        requires { IsTrue (is_name_of bytes.now) }
        ensures { result ≡ bytes.now }
    {
        let mut word = ArrayVec::new();
        for byte in bytes {
            word.push(*byte);
        }
        Word { bytes: word }
    }

    pub fn bytes(&self) -> &[u8]
        ensures bytes { result.now ≡ self.now }
        ensures name { IsTrue (is_name_of self.now) }
    {
        &self.bytes
    }

    pub fn as_str(&self) -> &str
        ensures { result.now ≡ self.now }
    {
        match str::from_utf8(self.bytes()) {
            Ok(text) => text,
            Err(_) => unreachable!(),
        }
    }
}

fn is_letter(byte: u8) -> bool
    ensures { result ≡ is_letter_of byte }
{
    byte.is_ascii_alphabetic()
}

fn is_name_byte(byte: u8) -> bool
    ensures { result ≡ is_name_byte_of byte }
{
    is_letter(byte) || byte.is_ascii_digit() || byte == b'_'
}

fn are_name_bytes(bytes: &[u8]) -> bool
    ensures { result ≡ list_all is_name_byte_of bytes.now }
{
    bytes.iter().all(|byte| is_name_byte(*byte))
}

fn has_underscore(bytes: &[u8]) -> bool
    ensures { result ≡ list_any is_underscore bytes.now }
{
    bytes.iter().any(|byte| *byte == b'_')
}

/// Whether a word is a name: 1 to 24 ASCII letters, digits or `_`, of which the first is a letter.
pub fn is_name(word: &[u8]) -> bool
    ensures { result ≡ is_name_of word.now }
{
    let Some((first, rest)) = word.split_first() else {
        return false;
    };
    is_letter(*first) && rest.len() < NAME_LIMIT && are_name_bytes(rest)
}

/// Whether a word is the name of a cache or directory state: a name without `_`.
pub fn is_state_name(word: &[u8]) -> bool
    ensures { result ≡ is_state_name_of word.now }
{
    is_name(word) && !has_underscore(word)
}
