//! The tables of both controllers of a protocol.
ghost use Rattle.std.specs.Prelude.{◌≡◌, IfOk};
ghost use Rattle.pg_table.specs.Sound.{IsSound};

use crate::cache::Table;
use crate::directory::DirTable;
use pg_perm::Mode;
use pg_shape::Protocol;
use std::alloc::AllocError;
use std::marker::Model;

/// The tables of the cache controllers and of the directory controller of a protocol, with a copy of the protocol. They are sound: docs/TABLES.md
/// says what that is.
#[derive(Debug, Drop)]
pub struct Tables {
    protocol: Protocol,
    mode: Mode,
    cache: Table,
    home: DirTable,
}

impl Model for Tables {
    ghost use Rattle.pg_table.specs.Tables.{Parts};
    ghost use Rattle.pg_table.specs.Sound.{IsSound};

    ghost Value = { Parts };

    ghost view = { λ t. record { protocol = t.protocol; mode = t.mode; cache = t.cache; home = t.home } };

    ghost invariant = { λ t. IsSound t.protocol t.cache t.home };
}

impl Tables {
    /// Puts two sound tables together. The mode is what they are called by.
    pub fn make(
        protocol: &Protocol,
        mode: Mode,
        cache: Table,
        home: DirTable,
    ) -> Result<Tables, AllocError>
        requires { IsSound protocol.now cache home }
        ensures { IfOk result (λ tables. tables ≡ record { protocol = protocol.now; mode = mode; cache = cache; home = home }) }
    {
        Ok(Tables {
            protocol: protocol.copy()?,
            mode,
            cache,
            home,
        })
    }

    /// The protocol of which they are the tables.
    pub fn protocol(&self) -> &Protocol
        ensures exact { result.now ≡ self.now.protocol }
        ensures sound { IsSound self.now.protocol self.now.cache self.now.home }
    {
        &self.protocol
    }

    /// The mode that they are called by. It says nothing of what they do.
    pub fn mode(&self) -> Mode
        ensures { result ≡ self.now.mode }
    {
        self.mode
    }

    /// The table of the cache controllers.
    pub fn cache(&self) -> &Table
        ensures exact { result.now ≡ self.now.cache }
        ensures sound { IsSound self.now.protocol self.now.cache self.now.home }
    {
        &self.cache
    }

    /// The table of the directory controller.
    pub fn home(&self) -> &DirTable
        ensures exact { result.now ≡ self.now.home }
        ensures sound { IsSound self.now.protocol self.now.cache self.now.home }
    {
        &self.home
    }
}
