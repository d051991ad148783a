ghost use Rattle.std.specs.Prelude.{◌≡◌, ◌++◌, ◌+◌, ◌≤◌, [], length, codes};
ghost use Rattle.std.specs.Fmt.{decimal};

use itoa::write_digits;
use std::marker::Model;

/// A line that is put together from its end, in place. Contracts see the bytes that it has so far.
#[derive(Drop)]
pub struct Line {
    /// There is room for three numbers of 20 digits and the words between them.
    bytes: [u8; 80],
    start: usize,
}

impl Model for Line {
    ghost use Rattle.std.specs.Prelude.{List, ℕ, ◌≤◌, drop};

    ghost Value = { List ℕ };

    ghost view = { λ l. drop l.start l.bytes };

    ghost invariant = { λ l. l.start ≤ 80 };
}

impl Line {
    /// A line of which there is only the end.
    #[inline]
    pub fn new() -> Line
        ensures { result ≡ codes "\n" }
    {
        Line {
            bytes: [b'\n'; 80],
            start: 79,
        }
    }

    /// A line of which there is nothing yet, not even its end.
    #[inline]
    pub fn empty() -> Line
        ensures { result ≡ [] }
    {
        Line {
            bytes: [0; 80],
            start: 80,
        }
    }

    /// Puts a text before what there is.
    #[inline]
    pub fn text(&mut self, text: &[u8])
        requires { length text.now + length self.old ≤ 80 }
        ensures { self.new ≡ text.now ++ self.old }
    {
        let end = self.start;
        self.start = end - text.len();
        self.bytes[self.start..end].copy_from_slice(text);
    }

    /// Puts a number before what there is.
    #[inline]
    pub fn number(&mut self, number: u64)
        requires { 20 + length self.old ≤ 80 }
        ensures exact { self.new ≡ decimal number ++ self.old }
        ensures short { length self.new ≤ 20 + length self.old }
    {
        self.start = write_digits(number, &mut self.bytes, self.start);
    }

    #[inline]
    pub fn bytes(&self) -> &[u8]
        ensures { result.now ≡ self.now }
    {
        &self.bytes[self.start..]
    }
}
