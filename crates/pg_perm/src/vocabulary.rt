//! Kinds that are called by words, and the reading of a word.
ghost use Rattle.std.specs.Prelude.{◌≡◌, ℕ, true, List, Some, slice_get};
ghost use Rattle.pg_perm.specs.Vocabularies.{are_apart, find_word as find_word_of};

/// A kind whose values are called by words, each by one of its own.
pub trait Vocabulary: Copy + 'static {
    /// The values.
    ghost all: { List Self };

    /// The word of a value.
    ghost word: { Self → List ℕ };

    fn all() -> &'static [Self]
        ensures { result.now ≡ all };

    fn word(self) -> &'static str
        ensures { result.now ≡ word self };

    /// Each value is in the list.
    ghost listed: { (x : Self) → (n : ℕ) × (slice_get all n ≡ Some x) };

    /// No two values have one word.
    ghost apart: { are_apart word all ≡ true };
}

/// The first of these values that a word calls.
pub fn find_among<V: Vocabulary>(values: &[V], word: &[u8]) -> Option<V>
    ensures { result ≡ find_word_of V.word values.now word.now }
{
    values
        .iter()
        .copied()
        .find(|value| word == value.word().as_bytes())
}

/// The value that a word calls.
pub fn find_word<V: Vocabulary>(word: &[u8]) -> Option<V>
    ensures exact { result ≡ find_word_of V.word V.all word.now }
    ensures again { (v : V) → word.now ≡ V.word v → result ≡ Some v }
    ensures alone { (v : V) → result ≡ Some v → word.now ≡ V.word v }
{
    find_among(V::all(), word)
}
