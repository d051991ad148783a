//! The rule on the directory state to which a row line leads.
//!
//! S17: a next state of a row line that isn't the one of the table in docs/TEXT.md.
ghost use Rattle.std.specs.Prelude.{◌≡◌};
ghost use Rattle.std.specs.Option.{option_copied};
ghost use Rattle.pg_terms.specs.Terms as term;
ghost use Rattle.pg_shape.specs.NextRules as rule;

use pg_perm::{
    Action, CoreLine, DirKind, Draft, Event, FwdClass, Left, ReplyName, ReqClass, RowForm, RowLine,
    Who,
};
use pg_terms::{
    core_row, final_under, has_class, is, is_owner_state, is_read_owner_state, keep_of, kind_is,
    listed_states, lists, out, reply_to, request_of, shared,
};

/// The core row of the state at a place.
fn core_row_at<'a>(draft: &'a Draft, place: usize, event: Event) -> Option<&'a CoreLine>
    ensures { option_copied result ≡ term.core_row draft.now place event }
{
    draft.cores.as_slice().iter().find(|line| usize::from(line.state) == place
        && line.event == event)
}

/// The core row of the requestor.
fn requestor_row<'a>(draft: &'a Draft, event: Event, who: Who) -> Option<&'a CoreLine>
    ensures { option_copied result ≡ rule.requestor_row draft.now event who }
{
    match who {
        Who::Other => core_row_at(draft, out(draft)?, event),
        Who::Sharer => core_row_at(draft, shared(draft)?, event),
        Who::Owner => None,
    }
}

/// The final state of the requestor, under a reply.
fn requestor_final(draft: &Draft, event: Event, who: Who, reply: u8) -> Option<u8>
    ensures { result ≡ rule.requestor_final draft.now event who reply }
{
    let row = requestor_row(draft, event, who)?;
    final_under(ReplyName::Reply(reply), &row.form)
}

/// The final state of the requestor, where an owner in a state answers.
fn requestor_final_by(draft: &Draft, event: Event, who: Who, forward: u8, state: u8) -> Option<u8>
    ensures { result ≡ rule.requestor_final_by draft.now event who forward state }
{
    requestor_final(draft, event, who, reply_to(draft, state, forward)?)
}

/// The final state of a store of an owner.
fn owner_store_final(draft: &Draft, state: u8) -> Option<u8>
    ensures { result ≡ rule.owner_store_final draft.now state }
{
    let row = core_row(draft, state, Event::Store)?;
    final_under(ReplyName::AckCount, &row.form)
}

fn lists_owner(draft: &Draft, dir: u8, state: u8) -> bool
    ensures { result ≡ rule.lists_owner draft.now dir state }
{
    lists(draft, dir, state) && is_owner_state(draft, state)
}

fn is_read_end(draft: &Draft, row: &RowLine, state: u8) -> bool
    ensures { result ≡ rule.is_read_end draft.now row.now state }
{
    (kind_is(DirKind::Shared, draft, row.next) && is(shared(draft), state))
        || (kind_is(DirKind::Idle, draft, row.dir)
            && kind_is(DirKind::Owned, draft, row.next)
            && lists_owner(draft, row.next, state))
}

fn reads_memory(draft: &Draft, row: &RowLine, who: Who, reply: u8) -> bool
    ensures { result ≡ rule.reads_memory draft.now row.now who reply }
{
    match requestor_final(draft, Event::Load, who, reply) {
        Some(state) => is_read_end(draft, row, state),
        None => true,
    }
}

fn is_shared_by(draft: &Draft, who: Who, forward: u8, owner: u8) -> bool
    ensures { result ≡ rule.is_shared_by draft.now who forward owner }
{
    match requestor_final_by(draft, Event::Load, who, forward, owner) {
        Some(state) => is(shared(draft), state),
        None => true,
    }
}

fn are_shared(draft: &Draft, who: Who, forward: u8, owners: &[u8]) -> bool
    ensures { result ≡ rule.are_shared draft.now who forward owners.now }
{
    owners
        .iter()
        .all(|owner| is_shared_by(draft, who, forward, *owner))
}

fn is_kept(draft: &Draft, next: u8, owner: u8) -> bool
    ensures { result ≡ rule.is_kept draft.now next owner }
{
    match keep_of(draft, owner) {
        Some(state) => lists(draft, next, state),
        None => true,
    }
}

fn are_kept(draft: &Draft, next: u8, owners: &[u8]) -> bool
    ensures { result ≡ rule.are_kept draft.now next owners.now }
{
    owners.iter().all(|owner| is_kept(draft, next, *owner))
}

fn is_owner_by(draft: &Draft, who: Who, next: u8, forward: u8, owner: u8) -> bool
    ensures { result ≡ rule.is_owner_by draft.now who next forward owner }
{
    match requestor_final_by(draft, Event::Load, who, forward, owner) {
        Some(state) => lists_owner(draft, next, state),
        None => true,
    }
}

fn are_owners(draft: &Draft, who: Who, next: u8, forward: u8, owners: &[u8]) -> bool
    ensures { result ≡ rule.are_owners draft.now who next forward owners.now }
{
    owners
        .iter()
        .all(|owner| is_owner_by(draft, who, next, forward, *owner))
}

fn is_listed_by(draft: &Draft, who: Who, next: u8, forward: u8, owner: u8) -> bool
    ensures { result ≡ rule.is_listed_by draft.now who next forward owner }
{
    match requestor_final_by(draft, Event::Store, who, forward, owner) {
        Some(state) => lists(draft, next, state),
        None => true,
    }
}

fn are_listed(draft: &Draft, who: Who, next: u8, forward: u8, owners: &[u8]) -> bool
    ensures { result ≡ rule.are_listed draft.now who next forward owners.now }
{
    owners
        .iter()
        .all(|owner| is_listed_by(draft, who, next, forward, *owner))
}

fn is_upgrade_listed(draft: &Draft, next: u8, owner: u8) -> bool
    ensures { result ≡ rule.is_upgrade_listed draft.now next owner }
{
    match owner_store_final(draft, owner) {
        Some(state) => !is_read_owner_state(draft, owner) || lists(draft, next, state),
        None => true,
    }
}

fn are_upgraded(draft: &Draft, next: u8, owners: &[u8]) -> bool
    ensures { result ≡ rule.are_upgraded draft.now next owners.now }
{
    owners
        .iter()
        .all(|owner| is_upgrade_listed(draft, next, *owner))
}

/// Whether a directory state lists all these states.
fn lists_each(draft: &Draft, next: u8, states: &[u8]) -> bool
    ensures { result ≡ rule.lists_each draft.now next states.now }
{
    states.iter().all(|state| lists(draft, next, *state))
}

fn leads_to_shared(draft: &Draft, row: &RowLine, who: Who, forward: u8) -> bool
    ensures { result ≡ rule.leads_to_shared draft.now row.now who forward }
{
    kind_is(DirKind::Shared, draft, row.next)
        && are_shared(draft, who, forward, listed_states(draft, row.dir))
}

fn leads_to_mixed(draft: &Draft, row: &RowLine, who: Who, forward: u8) -> bool
    ensures { result ≡ rule.leads_to_mixed draft.now row.now who forward }
{
    let owners = listed_states(draft, row.dir);
    kind_is(DirKind::Mixed, draft, row.next)
        && are_kept(draft, row.next, owners)
        && are_shared(draft, who, forward, owners)
}

fn leads_to_owned(draft: &Draft, row: &RowLine, who: Who, forward: u8) -> bool
    ensures { result ≡ rule.leads_to_owned draft.now row.now who forward }
{
    kind_is(DirKind::Owned, draft, row.next)
        && are_owners(draft, who, row.next, forward, listed_states(draft, row.dir))
}

fn reads_owner(draft: &Draft, row: &RowLine, who: Who, forward: u8) -> bool
    ensures { result ≡ rule.reads_owner draft.now row.now who forward }
{
    (!has_class(FwdClass::Share, draft, forward) || leads_to_shared(draft, row, who, forward))
        && (!has_class(FwdClass::Keep, draft, forward) || leads_to_mixed(draft, row, who, forward))
        && (!has_class(FwdClass::Drop, draft, forward) || leads_to_owned(draft, row, who, forward))
}

fn reads_rightly(draft: &Draft, row: &RowLine, who: Who, action: Action) -> bool
    ensures { result ≡ rule.reads_rightly draft.now row.now who action }
{
    match action {
        Action::Reply(reply) => reads_memory(draft, row, who, reply),
        Action::Forward(forward) => reads_owner(draft, row, who, forward),
        Action::Count => true,
    }
}

fn is_final_listed(draft: &Draft, who: Who, next: u8, reply: u8) -> bool
    ensures { result ≡ rule.is_final_listed draft.now who next reply }
{
    match requestor_final(draft, Event::Store, who, reply) {
        Some(state) => lists(draft, next, state),
        None => true,
    }
}

fn lists_writer(draft: &Draft, row: &RowLine, who: Who, action: Action) -> bool
    ensures { result ≡ rule.lists_writer draft.now row.now who action }
{
    match action {
        Action::Reply(reply) => is_final_listed(draft, who, row.next, reply),
        Action::Forward(forward) => are_listed(
            draft,
            who,
            row.next,
            forward,
            listed_states(draft, row.dir),
        ),
        Action::Count => true,
    }
}

fn writes_rightly(draft: &Draft, row: &RowLine, who: Who, action: Action) -> bool
    ensures { result ≡ rule.writes_rightly draft.now row.now who action }
{
    let is_owned = kind_is(DirKind::Owned, draft, row.next);
    match who {
        Who::Other | Who::Sharer => is_owned && lists_writer(draft, row, who, action),
        Who::Owner => is_owned && are_upgraded(draft, row.next, listed_states(draft, row.dir)),
    }
}

fn keeps_owner(draft: &Draft, row: &RowLine, left: Left) -> bool
    ensures { result ≡ rule.keeps_owner draft.now row.now left }
{
    let has_owner = match left {
        Left::Last => {
            kind_is(DirKind::Mixed, draft, row.next) || kind_is(DirKind::Owned, draft, row.next)
        }
        Left::More => kind_is(DirKind::Mixed, draft, row.next),
    };
    has_owner && lists_each(draft, row.next, listed_states(draft, row.dir))
}

fn leaves_rightly(draft: &Draft, row: &RowLine, left: Left) -> bool
    ensures { result ≡ rule.leaves_rightly draft.now row.now left }
{
    let kind = match left {
        Left::Last => DirKind::Idle,
        Left::More => DirKind::Shared,
    };
    kind_is(kind, draft, row.next)
}

fn evicts_rightly(draft: &Draft, row: &RowLine, who: Who, left: Left) -> bool
    ensures { result ≡ rule.evicts_rightly draft.now row.now who left }
{
    match who {
        Who::Other => true,
        Who::Sharer => {
            (!kind_is(DirKind::Shared, draft, row.dir) || leaves_rightly(draft, row, left))
                && (!kind_is(DirKind::Mixed, draft, row.dir) || keeps_owner(draft, row, left))
        }
        Who::Owner => leaves_rightly(draft, row, left),
    }
}

/// Whether a row line of this form leads to a directory state that it may.
pub fn leads_rightly(draft: &Draft, row: &RowLine, form: RowForm) -> bool
    ensures { result ≡ rule.leads_rightly draft.now row.now form }
{
    match form {
        RowForm::Ask {
            request,
            who,
            action,
        } => {
            (!is(request_of(draft, ReqClass::Read), request)
                || reads_rightly(draft, row, who, action))
                && (!is(request_of(draft, ReqClass::Write), request)
                    || writes_rightly(draft, row, who, action))
        }
        RowForm::Evict { who, left } => evicts_rightly(draft, row, who, left),
    }
}
