ghost use Rattle.std.specs.Prelude.{◌≡◌, ◌<◌, ◌≤◌, [], Some, length, slice_get};
ghost use Rattle.pg_directory.specs.DirEntries.{is_among, with_core, without_core};
ghost use Rattle.pg_world.specs.Indexed.{marked};

use pg_directory::CoreSet;
use std::marker::Model;

/// A set of cores with numbers below 64, and its size. Contracts see its cores in ascending order.
#[derive(Debug, Drop)]
pub struct Marks {
    cores: CoreSet,
    size: u32,
}

impl Model for Marks {
    ghost use Rattle.std.specs.Prelude.{List, ℕ};
    ghost use Rattle.pg_world.specs.Indexed.{IsCounted};

    ghost Value = { List ℕ };

    ghost view = { λ m. m.cores };

    ghost invariant = { λ m. IsCounted m.size m.cores };
}

impl Marks {
    /// No core.
    pub fn new() -> Marks
        ensures { result ≡ [] }
    {
        Marks {
            cores: CoreSet::new(),
            size: 0,
        }
    }

    pub fn has(&self, core: u32) -> bool
        requires { core < 64 }
        ensures { result ≡ is_among self.now core }
    {
        self.cores.has(core)
    }

    /// How many cores it has.
    pub fn len(&self) -> u32
        ensures size { result ≡ length self.now }
        ensures few { result ≤ 64 }
    {
        self.size
    }

    /// Puts a core in, or takes it out.
    pub fn mark(&mut self, core: u32, on: bool)
        requires { core < 64 }
        ensures { self.new ≡ marked core on self.old }
    {
        if on {
            self.put(core);
        } else {
            self.take(core);
        }
    }

    fn put(&mut self, core: u32)
        requires { core < 64 }
        ensures { self.new ≡ with_core core self.old }
    {
        if !self.cores.has(core) {
            self.cores.add(core);
            self.size += 1;
        }
    }

    fn take(&mut self, core: u32)
        requires { core < 64 }
        ensures { self.new ≡ without_core core self.old }
    {
        if self.cores.has(core) {
            self.cores.remove(core);
            self.size -= 1;
        }
    }

    /// The core at a place in ascending order, from 0 on.
    pub fn nth(&self, i: u32) -> u32
        requires { i < length self.now }
        ensures { slice_get self.now i ≡ Some result }
    {
        let mut rest = self.cores.copy();
        let mut left = i;
        loop {
            let core = rest.pop_first().unwrap();
            if left == 0 {
                return core;
            }
            left -= 1;
        }
    }
}
