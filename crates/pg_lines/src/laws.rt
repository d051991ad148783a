//! Laws of the definitions that the contracts of this crate cite.

ghost use Rattle.std.specs.Prelude.{◌≡◌, ◌≢◌, ◌∷◌, ◌++◌, ℕ, List, [], Some, None, true, false, codes, drop, map, length, IsTrue};
ghost use Rattle.std.specs.List.{join_with_byte, list_all};
ghost use Rattle.pg_lines.specs.Lines.{lines_of, words_of, first_line, bytes_after, place_after, line_text, text_of, is_plain, are_plain};

/// Each newline ends a line. A text without a byte has no line, two newlines that meet have an empty line between them, and what follows
/// the last newline is a line only if it has a byte. A tab and a carriage return are bytes of a line as any other.
pub fn worked_lines()
    ensures empty_text { lines_of [] ≡ [] }
    ensures one_newline { lines_of (10 ∷ []) ≡ [] ∷ [] }
    ensures two_newlines { lines_of (10 ∷ 10 ∷ []) ≡ [] ∷ [] ∷ [] }
    ensures last_newline { lines_of (codes "a" ++ 10 ∷ codes "b" ++ 10 ∷ []) ≡ codes "a" ∷ codes "b" ∷ [] }
    ensures no_last_newline { lines_of (codes "a" ++ 10 ∷ codes "b") ≡ codes "a" ∷ codes "b" ∷ [] }
    ensures empty_line_between { lines_of (codes "a" ++ 10 ∷ 10 ∷ codes "b") ≡ codes "a" ∷ [] ∷ codes "b" ∷ [] }
    ensures carriage_return { lines_of (codes "a" ++ 13 ∷ 10 ∷ []) ≡ (codes "a" ++ 13 ∷ []) ∷ [] }
    ensures no_first { first_line [] ≡ None }
    ensures empty_first { first_line (10 ∷ codes "b") ≡ Some ([], codes "b") }
    ensures first_of_two { first_line (codes "a b" ++ 10 ∷ codes "c" ++ 10 ∷ []) ≡ Some (codes "a b", codes "c" ++ 10 ∷ []) }
    ensures only_line { first_line (codes "a b") ≡ Some (codes "a b", []) }
    ensures place_in_front { place_after 0 (codes "ab" ++ 10 ∷ codes "c" ++ 10 ∷ []) ≡ 0 }
    ensures place_of_second { place_after 1 (codes "ab" ++ 10 ∷ codes "c" ++ 10 ∷ []) ≡ 3 }
    ensures place_of_end { place_after 2 (codes "ab" ++ 10 ∷ codes "c" ++ 10 ∷ []) ≡ 5 }
{}

/// Single spaces part the words of a line, and nothing else does: a line without a byte is one empty word, and where two spaces meet, or one
/// is at an end, there is an empty word.
pub fn worked_words()
    ensures empty_line { words_of [] ≡ [] ∷ [] }
    ensures one_word { words_of (codes "end") ≡ codes "end" ∷ [] }
    ensures three_words { words_of (codes "a bc d") ≡ codes "a" ∷ codes "bc" ∷ codes "d" ∷ [] }
    ensures spaces_meet { words_of (codes "a  b") ≡ codes "a" ∷ [] ∷ codes "b" ∷ [] }
    ensures first_space { words_of (codes " a") ≡ [] ∷ codes "a" ∷ [] }
    ensures last_space { words_of (codes "a ") ≡ codes "a" ∷ [] ∷ [] }
    ensures tab { words_of (codes "a" ++ 9 ∷ codes "b") ≡ (codes "a" ++ 9 ∷ codes "b") ∷ [] }
    ensures comma { words_of (codes "a,b") ≡ codes "a,b" ∷ [] }
    ensures carriage_return { words_of (codes "a b" ++ 13 ∷ []) ≡ codes "a" ∷ (codes "b" ++ 13 ∷ []) ∷ [] }
    ensures written { line_text (codes "a" ∷ codes "bc" ∷ []) ≡ codes "a bc" ++ 10 ∷ [] }
    ensures written_without_words { line_text [] ≡ 10 ∷ [] }
    ensures plain_bytes { map is_plain (32 ∷ 10 ∷ 9 ∷ 13 ∷ 97 ∷ []) ≡ false ∷ false ∷ true ∷ true ∷ true ∷ [] }
{}

/// The place after line `n` is where the lines from there on begin.
pub fn places_are_exact()
    ensures lines { (n : ℕ) (bytes : List ℕ) → lines_of (bytes_after n bytes) ≡ drop n (lines_of bytes) }
    ensures place { (n : ℕ) (bytes : List ℕ) → bytes_after n bytes ≡ drop (place_after n bytes) bytes }
{}

/// A text that is written as lines of words without spaces and newlines has these lines, and nothing after them; and a line that has a
/// word has the words that it is written of.
pub fn written_texts_are_exact()
    ensures words { (ws : List (List ℕ)) → IsTrue (are_plain ws) → ws ≢ [] → words_of (join_with_byte 32 ws) ≡ ws }
    ensures lines { (lines : List (List (List ℕ))) → IsTrue (list_all are_plain lines)
        → lines_of (text_of lines) ≡ map (join_with_byte 32) lines }
    ensures place { (lines : List (List (List ℕ))) → IsTrue (list_all are_plain lines)
        → place_after (length lines) (text_of lines) ≡ length (text_of lines) }
{}
