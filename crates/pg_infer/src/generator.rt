//! Both tables together.
ghost use Rattle.std.specs.Prelude.{◌≡◌, IfOk};
ghost use Rattle.pg_table.specs.Tables.{generated_tables};
ghost use Rattle.pg_table.specs.Sound.{IsSound};

use crate::directory::dir_table;
use crate::table::cache_table;
use pg_perm::Mode;
use pg_shape::Protocol;
use pg_table::Tables;
use std::alloc::{AllocError, Global};

/// Generates the tables of both controllers of a protocol.
///
/// In the stalling mode each forward that is later than an outstanding operation waits, and in the deferring mode none does. docs/TABLES.md has
/// the states and the rows.
pub fn generate(alloc: Global, protocol: &Protocol, mode: Mode) -> Result<Tables, AllocError>
    ensures exact { IfOk result (λ t. t ≡ generated_tables protocol.now mode) }
    ensures sound { IfOk result (λ t. IsSound t.protocol t.cache t.home) }
{
    let cache = cache_table(alloc, protocol, mode)?;
    let home = dir_table(alloc, protocol)?;
    Tables::make(protocol, mode, cache, home)
}
