ghost use Rattle.std.specs.Prelude.{◌≡◌};
ghost use Rattle.std.specs.List.{list_any};
ghost use Rattle.pg_terms.specs.Due as due;
ghost use Rattle.pg_terms.specs.Terms as term;

use crate::cases::DirCase;
use crate::terms::{
    forward_of, has_class, is, is_case, is_owner_state, is_read_owner_state, lists, request_of,
    shared,
};
use pg_perm::{Action, DirKind, Draft, FwdClass, Left, ReqClass, RowForm, RowLine, TakeLine, Who};

/// What is due at an idle directory state.
const IDLE: &[DirCase] = &[
    DirCase::Ask(ReqClass::Read, Who::Other),
    DirCase::Ask(ReqClass::Write, Who::Other),
];

const SHARED: &[DirCase] = &[
    DirCase::Ask(ReqClass::Read, Who::Other),
    DirCase::Ask(ReqClass::Write, Who::Other),
    DirCase::Ask(ReqClass::Write, Who::Sharer),
    DirCase::Evict(Who::Sharer, Left::Last),
    DirCase::Evict(Who::Sharer, Left::More),
];

/// Where the owner may write in each state that is listed.
const OWNED: &[DirCase] = &[
    DirCase::Ask(ReqClass::Read, Who::Other),
    DirCase::Ask(ReqClass::Write, Who::Other),
    DirCase::Evict(Who::Owner, Left::Last),
];

const OWNED_BY_READER: &[DirCase] = &[
    DirCase::Ask(ReqClass::Read, Who::Other),
    DirCase::Ask(ReqClass::Write, Who::Other),
    DirCase::Ask(ReqClass::Write, Who::Owner),
    DirCase::Evict(Who::Owner, Left::Last),
];

const MIXED: &[DirCase] = &[
    DirCase::Ask(ReqClass::Read, Who::Other),
    DirCase::Ask(ReqClass::Write, Who::Other),
    DirCase::Ask(ReqClass::Write, Who::Sharer),
    DirCase::Ask(ReqClass::Write, Who::Owner),
    DirCase::Evict(Who::Owner, Left::Last),
    DirCase::Evict(Who::Owner, Left::More),
    DirCase::Evict(Who::Sharer, Left::Last),
    DirCase::Evict(Who::Sharer, Left::More),
];

/// There is a directory state of this number, and it is of the kind.
pub fn kind_is(kind: DirKind, draft: &Draft, dir: u8) -> bool
    ensures { result ≡ due.kind_is kind draft.now dir }
{
    draft
        .dirs
        .get(usize::from(dir))
        .is_some_and(|line| line.kind == kind)
}

/// The forward with which a row line of this form passes a request on.
pub fn forward_in(form: RowForm) -> Option<u8>
    ensures { result ≡ due.forward_in form }
{
    match form {
        RowForm::Ask {
            action: Action::Forward(forward),
            ..
        } => Some(forward),
        _ => None,
    }
}

pub fn is_to_owner(draft: &Draft, forward: u8) -> bool
    ensures { result ≡ due.is_to_owner draft.now forward }
{
    has_class(FwdClass::Share, draft, forward)
        || has_class(FwdClass::Keep, draft, forward)
        || has_class(FwdClass::Drop, draft, forward)
}

fn is_passed_to(draft: &Draft, state: u8, forward: u8, row: &RowLine) -> bool
    ensures { result ≡ due.is_passed_to draft.now state forward row.now }
{
    forward_in(row.form) == Some(forward) && lists(draft, row.dir, state)
}

fn passes_to(draft: &Draft, state: u8, forward: u8) -> bool
    ensures { result ≡ list_any (due.is_passed_to draft.now state forward) draft.now.rows }
{
    draft
        .rows
        .as_slice()
        .iter()
        .any(|row| is_passed_to(draft, state, forward, row))
}

/// Whether a cache in this state may get this forward.
pub fn is_due(draft: &Draft, state: u8, forward: u8) -> bool
    ensures { result ≡ due.is_due draft.now state forward }
{
    (is(shared(draft), state) && is(forward_of(draft, FwdClass::Inv), forward))
        || (is_owner_state(draft, state)
            && is_to_owner(draft, forward)
            && passes_to(draft, state, forward))
}

fn lists_read_owner(draft: &Draft, states: &[u8]) -> bool
    ensures { result ≡ due.lists_read_owner draft.now states.now }
{
    states
        .iter()
        .any(|state| is_read_owner_state(draft, *state))
}

fn due_cases(kind: DirKind, reads: bool) -> &'static [DirCase]
    ensures { result.now ≡ due.due_cases kind reads }
{
    match kind {
        DirKind::Idle => IDLE,
        DirKind::Shared => SHARED,
        DirKind::Owned if reads => OWNED_BY_READER,
        DirKind::Owned => OWNED,
        DirKind::Mixed => MIXED,
    }
}

/// The cases that are due at a directory state.
pub fn cases_at(draft: &Draft, dir: u8) -> &'static [DirCase]
    ensures { result.now ≡ due.cases_at draft.now dir }
{
    match draft.dirs.get(usize::from(dir)) {
        Some(line) => due_cases(line.kind, lists_read_owner(draft, line.beside.as_slice())),
        None => &[],
    }
}

pub fn is_due_case(draft: &Draft, dir: u8, at: DirCase) -> bool
    ensures { result ≡ due.is_due_case draft.now dir at }
{
    cases_at(draft, dir).iter().any(|due| at == *due)
}

/// Whether a row line of this form is for a case that is due.
pub fn is_form_due(draft: &Draft, dir: u8, form: RowForm) -> bool
    ensures { result ≡ list_any (term.is_case draft.now form) (due.cases_at draft.now dir) }
{
    cases_at(draft, dir)
        .iter()
        .any(|at| is_case(draft, form, *at))
}

fn is_row_for(draft: &Draft, class: ReqClass, form: RowForm) -> bool
    ensures { result ≡ due.is_row_for draft.now class form }
{
    match form {
        RowForm::Ask { request, .. } => is(request_of(draft, class), request),
        RowForm::Evict { .. } => false,
    }
}

fn is_row_from(draft: &Draft, class: ReqClass, sender: Who, form: RowForm) -> bool
    ensures { result ≡ due.is_row_from draft.now class sender form }
{
    match form {
        RowForm::Ask { request, who, .. } => {
            is(request_of(draft, class), request) && sender == who
        }
        RowForm::Evict { .. } => false,
    }
}

/// Whether a take line answers the reply.
pub fn is_reply(take: &TakeLine, reply: u8) -> bool
    ensures { result ≡ term.is take.now.reply reply }
{
    take.reply == Some(reply)
}

fn is_answer(draft: &Draft, dir: u8, forward: u8, reply: u8, take: &TakeLine) -> bool
    ensures { result ≡ due.is_answer draft.now dir forward reply take.now }
{
    take.forward == forward && is_reply(take, reply) && lists(draft, dir, take.state)
}

fn is_answered(draft: &Draft, dir: u8, forward: u8, reply: u8) -> bool
    ensures { result ≡ list_any (due.is_answer draft.now dir forward reply) draft.now.takes }
{
    draft
        .takes
        .as_slice()
        .iter()
        .any(|take| is_answer(draft, dir, forward, reply, take))
}

fn row_brings_reply(draft: &Draft, dir: u8, form: RowForm, reply: u8) -> bool
    ensures { result ≡ due.row_brings_reply draft.now dir form reply }
{
    let RowForm::Ask { action, .. } = form else {
        return false;
    };
    match action {
        Action::Reply(sent) => sent == reply,
        Action::Forward(forward) => is_answered(draft, dir, forward, reply),
        Action::Count => false,
    }
}

/// Whether a load may get this reply.
pub fn is_load_reply(draft: &Draft, reply: u8) -> bool
    ensures { result ≡ due.is_load_reply draft.now reply }
{
    draft.rows.as_slice().iter().any(|row| {
        is_row_for(draft, ReqClass::Read, row.form)
            && row_brings_reply(draft, row.dir, row.form, reply)
    })
}

/// Whether a store may get this reply whose sender is so.
pub fn is_store_reply(draft: &Draft, sender: Who, reply: u8) -> bool
    ensures { result ≡ due.is_store_reply draft.now sender reply }
{
    draft.rows.as_slice().iter().any(|row| {
        is_row_from(draft, ReqClass::Write, sender, row.form)
            && row_brings_reply(draft, row.dir, row.form, reply)
    })
}
