ghost use Rattle.std.specs.Prelude.{◌≡◌, ◌+◌, ◌<◌, ℕ, List, [], ◌∷◌, ◌++◌, Some, None, is_some, map, length, slice_get, OnOk, OnErr};
ghost use Rattle.std.specs.Option.{option_copied};
ghost use Rattle.pg_names.specs.Number.{number_of};

use pg_names::Names;
use pg_perm::{CacheLine, DirLine, MsgLine, Sequence, Word};
use std::alloc::{AllocError, Global};
use std::marker::Model;

/// A line that declares a name.
pub trait Declares: Drop {
    /// The name that it declares.
    ghost name: { Self → List ℕ };

    fn name(&self) -> &Word
        ensures { result.now ≡ name self.now };
}

impl Declares for CacheLine {
    ghost name = { λ c. c.name };

    fn name(&self) -> &Word {
        &self.name
    }
}

impl Declares for DirLine {
    ghost name = { λ s. s.name };

    fn name(&self) -> &Word {
        &self.name
    }
}

impl Declares for MsgLine {
    ghost name = { λ m. m.name };

    fn name(&self) -> &Word {
        &self.name
    }
}

/// Up to 256 lines in their order, with their names in a table to look them up. Contracts see the
/// lines.
#[derive(Drop)]
pub struct NamedLines<T: Declares> {
    lines: Vec<T>,
    names: Names,
}

impl<T: Declares> Model for NamedLines<T> {
    ghost use Rattle.std.specs.Prelude.{List};
    ghost use Rattle.std.specs.Coded.{coded_list};

    ghost Value = { List T };

    ghost coded = { coded_list T.code };

    ghost use Rattle.pg_drafting.specs.Named.{AreNamed};

    ghost view = { λ l. l.lines.items };

    ghost invariant = { λ l. AreNamed T.name l.lines.items l.names };
}

impl<T: Declares> NamedLines<T> {
    /// No lines.
    pub fn new(alloc: Global) -> NamedLines<T>
        ensures { result ≡ [] }
    {
        NamedLines {
            lines: Vec::new(alloc),
            names: Names::new(alloc),
        }
    }

    /// The number of the line that declares a name.
    pub fn find(&self, name: &Word) -> Option<u8>
        ensures { result ≡ number_of (map T.name self.now) name.now }
    {
        let number = self.names.find(name.as_str())?;
        Some(number as u8)
    }

    /// Whether a line declares a name.
    pub fn declares(&self, name: &Word) -> bool
        ensures { result ≡ is_some (number_of (map T.name self.now) name.now) }
    {
        self.find(name).is_some()
    }

    /// The line of a number.
    pub fn get(&self, number: u8) -> Option<&T>
        ensures { option_copied result ≡ slice_get self.now number }
    {
        self.lines.get(usize::from(number))
    }

    pub fn len(&self) -> usize
        ensures { result ≡ length self.now }
    {
        self.lines.len()
    }

    /// Puts a line last that declares a new name. Where memory runs out, the lines stay as they
    /// were.
    pub fn push(&mut self, line: T) -> Result<(), AllocError>
        requires new { number_of (map T.name self.old) (T.name line) ≡ None }
        requires room { length self.old < 256 }
        ensures pushed { OnOk result (self.new ≡ self.old ++ line ∷ []) }
        ensures refused { OnErr result (self.new ≡ self.old) }
    {
        self.lines.reserve(1)?;
        self.names.add(line.name().as_str())?;
        self.lines.push_reserved(line);
        Ok(())
    }

    pub fn into_lines(self) -> Sequence<T>
        ensures { result ≡ self }
    {
        let NamedLines { lines, names: _ } = self;
        Sequence::from(lines)
    }
}
