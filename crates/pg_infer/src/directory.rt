//! The table of the directory controller, of a protocol.
ghost use Rattle.std.specs.Prelude.{◌≡◌, ◌≤◌, length, IfOk};
ghost use Rattle.pg_perm.specs.Drafts.{IsWellFormed};
ghost use Rattle.pg_table.specs.Directory as directory;
ghost use Rattle.pg_table.specs.Tables as tables;

mod choices;

use crate::controller::table_of;
use pg_perm::{Draft, Left, Mode, ReqClass, Who};
use pg_shape::Protocol;
use pg_table::{DirDesc, DirInput, DirTable};
use pg_terms::is_by_share;
use std::alloc::{AllocError, Global};

/// The inputs of the directory controller, in their order.
const INPUTS: &[DirInput] = &[
    DirInput::Ask(ReqClass::Read, Who::Other),
    DirInput::Ask(ReqClass::Write, Who::Other),
    DirInput::Ask(ReqClass::Write, Who::Sharer),
    DirInput::Ask(ReqClass::Write, Who::Owner),
    DirInput::Evict(Who::Owner, Left::Last),
    DirInput::Evict(Who::Owner, Left::More),
    DirInput::Evict(Who::Sharer, Left::Last),
    DirInput::Evict(Who::Sharer, Left::More),
    DirInput::EvictNone,
    DirInput::BusyAsk(ReqClass::Read),
    DirInput::BusyAsk(ReqClass::Write),
    DirInput::BusyEvict,
    DirInput::Wb,
];

/// A row that passes a request on by a share leads to this state.
fn is_after_share(draft: &Draft, dir: u8) -> bool
    ensures { result ≡ directory.is_after_share draft.now dir }
{
    draft
        .rows
        .as_slice()
        .iter()
        .any(|row| is_by_share(draft, row) && row.next == dir)
}

#[tactic(auto, using(crate::proofs::DirCounts::dirs_few, crate::proofs::DirCounts::states_few))]
/// The states of the controller: those that are declared, and one that waits for data before each that a share leads to.
fn dir_descs(alloc: Global, draft: &Draft) -> Result<Vec<DirDesc>, AllocError>
    requires { IsWellFormed draft.now }
    ensures exact { IfOk result (λ states. states.items ≡ directory.dir_descs draft.now) }
    ensures few { IfOk result (λ states. length states.items ≤ 32) }
{
    let dirs = draft.dirs.len() as u8;
    let declared = (0..dirs).map(DirDesc::State);
    let waiting = (0..dirs)
        .filter(|dir| is_after_share(draft, *dir))
        .map(DirDesc::Busy);
    declared.chain(waiting).collect(alloc)
}

/// The table of the directory controller, which is the same in both modes.
pub fn dir_table(alloc: Global, protocol: &Protocol) -> Result<DirTable, AllocError>
    ensures { IfOk result (λ table. table ≡ tables.dir_table protocol.now) }
{
    let states = dir_descs(alloc, protocol.draft())?;
    table_of(alloc, protocol, Mode::Stall, states.as_slice(), INPUTS)
}
