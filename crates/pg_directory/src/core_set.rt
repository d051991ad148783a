ghost use Rattle.std.specs.Prelude.{◌≡◌, ◌<◌, ◌↔◌, false, [], ◌∷◌, IsTrue, IfSome, IfNone};
ghost use Rattle.pg_directory.specs.DirEntries.{is_among, with_core, without_core, left_of};

use pg_perm::Left;
use std::marker::Model;

/// A set of cores with numbers below 64, a bit for each. Contracts see its cores in ascending order.
#[derive(Debug, Drop)]
pub struct CoreSet {
    bits: u64,
}

impl Model for CoreSet {
    ghost use Rattle.std.specs.Prelude.{List, ℕ};
    ghost use Rattle.pg_directory.specs.CoreSets.{cores_of};

    ghost Value = { List ℕ };

    ghost view = { λ s. cores_of s.bits };
}

impl CoreSet {
    /// A set of no core.
    #[inline]
    pub fn new() -> CoreSet
        ensures { result ≡ [] }
    {
        CoreSet { bits: 0 }
    }

    /// Another set of the same cores.
    #[inline]
    pub fn copy(&self) -> CoreSet
        ensures { result ≡ self.now }
    {
        CoreSet { bits: self.bits }
    }

    #[inline]
    pub fn is_empty(&self) -> bool
        ensures { IsTrue result ↔ (self.now ≡ []) }
    {
        self.bits == 0
    }

    #[inline]
    pub fn has(&self, core: u32) -> bool
        requires { core < 64 }
        ensures { result ≡ is_among self.now core }
    {
        (self.bits >> core) & 1 == 1
    }

    #[inline]
    pub fn add(&mut self, core: u32)
        requires { core < 64 }
        ensures { self.new ≡ with_core core self.old }
    {
        self.bits = self.bits | (1 << core);
    }

    #[inline]
    pub fn remove(&mut self, core: u32)
        requires { core < 64 }
        ensures { self.new ≡ without_core core self.old }
    {
        self.bits = self.bits & !(1 << core);
    }

    #[inline]
    pub fn clear(&mut self)
        ensures { self.new ≡ [] }
    {
        self.bits = 0;
    }

    /// Whether there are other cores than this one.
    #[inline]
    pub fn left_without(&self, core: u32) -> Left
        requires { core < 64 }
        ensures { result ≡ left_of (without_core core self.now) }
    {
        let mut others = self.copy();
        others.remove(core);
        if others.is_empty() {
            Left::Last
        } else {
            Left::More
        }
    }

    /// Takes the first core out.
    #[inline]
    pub fn pop_first(&mut self) -> Option<u32>
        ensures none { IfNone result (self.old ≡ []) }
        ensures first { IfSome result (λ core. self.old ≡ core ∷ self.new) }
        ensures left { IfSome result (λ core. self.new ≡ without_core core self.old) }
        ensures few { IfSome result (λ core. core < 64) }
    {
        if self.bits == 0 {
            return None;
        }
        let first = self.bits.trailing_zeros();
        self.bits = self.bits & !(1 << first);
        Some(first)
    }
}
