//! What the directory controller does at each input.
ghost use Rattle.std.specs.Prelude.{◌≡◌, Some, IfOk, if◌then◌else◌};
ghost use Rattle.std.specs.Option.{option_copied};
ghost use Rattle.pg_terms.specs.Rows as rows;
ghost use Rattle.pg_table.specs.Directory as directory;

use crate::choice::{DirChoice, DirChosen, step};
use crate::controller::State;
use pg_perm::{Action, DirKind, Draft, Left, Mode, ReqClass, RowLine, Sequence, Who};
use pg_shape::Protocol;
use pg_table::{DirAct, DirDesc, DirInput};
use pg_terms::{DirCase, action_in, dir_row, is_by_share, is_due_case, kind_is};
use std::alloc::Global;

/// By the row of a request, which does this.
fn by_ask(
    alloc: Global,
    draft: &Draft,
    dir: u8,
    class: ReqClass,
    row: &RowLine,
    action: Action,
) -> DirChosen
    ensures { IfOk result (λ choice. choice ≡ Some (directory.by_ask draft.now dir class row.now action)) }
{
    let mut acts = Vec::new(alloc);
    acts.extend_from_slice(inv_acts(draft, dir, class))?;
    acts.push(act_of_action(action))?;
    Ok(Some(DirChoice {
        acts: Sequence::from(acts),
        next: next_by_ask(draft, row),
    }))
}

fn act_of_action(action: Action) -> DirAct
    ensures { result ≡ directory.act_of_action action }
{
    match action {
        Action::Reply(reply) => DirAct::Reply(reply),
        Action::Forward(forward) => DirAct::Forward(forward),
        Action::Count => DirAct::AckCount,
    }
}

/// Where there may be sharers, a write sends them invalidations.
fn inv_acts(draft: &Draft, dir: u8, class: ReqClass) -> &'static [DirAct]
    ensures { result.now ≡ directory.inv_acts draft.now dir class }
{
    let may_share = kind_is(DirKind::Shared, draft, dir) || kind_is(DirKind::Mixed, draft, dir);
    match class {
        ReqClass::Write if may_share => &[DirAct::Inv],
        _ => &[],
    }
}

/// After a share the controller waits for data first.
fn next_by_ask(draft: &Draft, row: &RowLine) -> DirDesc
    ensures { result ≡ (if rows.is_by_share draft.now row.now then DirDesc.Busy row.now.next else DirDesc.State row.now.next) }
{
    if is_by_share(draft, row) {
        DirDesc::Busy(row.next)
    } else {
        DirDesc::State(row.next)
    }
}

/// An owner's evict writes the word that it brings, if it does.
fn evict_acts(who: Who) -> &'static [DirAct]
    ensures { result.now ≡ directory.evict_acts who }
{
    match who {
        Who::Owner => &[DirAct::Write, DirAct::PutAck],
        _ => &[DirAct::PutAck],
    }
}

/// The row of a case that is due.
fn due_row(draft: &Draft, dir: u8, at: DirCase) -> Option<&RowLine>
    ensures { option_copied result ≡ directory.due_row draft.now dir at }
{
    if is_due_case(draft, dir, at) {
        dir_row(draft, dir, at)
    } else {
        None
    }
}

fn at_ask(alloc: Global, draft: &Draft, dir: u8, class: ReqClass, who: Who) -> DirChosen
    ensures { IfOk result (λ choice. choice ≡ directory.in_state draft.now dir (DirInput.Ask class who)) }
{
    let Some(row) = due_row(draft, dir, DirCase::Ask(class, who)) else {
        return Ok(None);
    };
    match action_in(row.form) {
        Some(action) => by_ask(alloc, draft, dir, class, row, action),
        None => Ok(None),
    }
}

fn at_evict(alloc: Global, draft: &Draft, dir: u8, who: Who, left: Left) -> DirChosen
    ensures { IfOk result (λ choice. choice ≡ directory.in_state draft.now dir (DirInput.Evict who left)) }
{
    match due_row(draft, dir, DirCase::Evict(who, left)) {
        Some(row) => step(alloc, evict_acts(who), DirDesc::State(row.next)),
        None => Ok(None),
    }
}

fn in_state(alloc: Global, draft: &Draft, dir: u8, input: DirInput) -> DirChosen
    ensures { IfOk result (λ choice. choice ≡ directory.in_state draft.now dir input) }
{
    match input {
        DirInput::Ask(class, who) => at_ask(alloc, draft, dir, class, who),
        DirInput::Evict(who, left) => at_evict(alloc, draft, dir, who, left),
        DirInput::EvictNone => step(alloc, &[DirAct::PutAck], DirDesc::State(dir)),
        _ => Ok(None),
    }
}

/// While it is busy each request waits, and the data ends that.
fn when_busy(alloc: Global, dir: u8, input: DirInput) -> DirChosen
    ensures { IfOk result (λ choice. choice ≡ directory.when_busy dir input) }
{
    let (act, next) = match input {
        DirInput::BusyAsk(ReqClass::Read | ReqClass::Write) | DirInput::BusyEvict => {
            (DirAct::Stall, DirDesc::Busy(dir))
        }
        DirInput::Wb => (DirAct::Write, DirDesc::State(dir)),
        _ => return Ok(None),
    };
    step(alloc, &[act], next)
}

impl State for DirDesc {
    type Input = DirInput;

    type Act = DirAct;

    ghost choice = { λ d m s i. directory.dir_choice d s i };

    /// What the controller does in a state at an input, if that may come.
    fn choose(self, alloc: Global, protocol: &Protocol, _mode: Mode, input: DirInput) -> DirChosen {
        let draft = protocol.draft();
        match self {
            DirDesc::State(dir) => in_state(alloc, draft, dir, input),
            DirDesc::Busy(dir) => when_busy(alloc, dir, input),
        }
    }
}
