//! The table of a cache controller.
ghost use Rattle.std.specs.Prelude.{◌≡◌, IfOk};
ghost use Rattle.pg_table.specs.Tables as tables;
ghost use Rattle.pg_table.specs.Sound.{IsSound};

use crate::controller::table_of;
use crate::inputs::inputs;
use crate::states::descs;
use pg_perm::Mode;
use pg_shape::Protocol;
use pg_table::Table;
use std::alloc::{AllocError, Global};

#[tactic(auto, using(crate::proofs::Counts::descs_few))]
/// The table of a cache controller.
pub fn cache_table(alloc: Global, protocol: &Protocol, mode: Mode) -> Result<Table, AllocError>
    ensures exact { IfOk result (λ table. table ≡ tables.cache_table protocol.now mode) }
    ensures sound { IfOk result (λ table. IsSound protocol.now table (tables.dir_table protocol.now)) }
{
    let states = descs(alloc, protocol, mode)?;
    let inputs = inputs(alloc, protocol.draft())?;
    table_of(alloc, protocol, mode, states.as_slice(), inputs.as_slice())
}
