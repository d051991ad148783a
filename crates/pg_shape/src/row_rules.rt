//! The rules that a row line breaks.
//!
//! S9: a case that an earlier line has.
//! S15: a case that isn't due.
//! S16: an action that the case may not have in a directory state of this kind.
//! S17: a next state that it may not lead to, which `next_rules` judges.
ghost use Rattle.std.specs.Prelude.{◌≡◌, ◌≤◌, length};
ghost use Rattle.pg_shape.specs.RowRules as rule;
ghost use Rattle.pg_shape.specs.FirstFaults.{first_rule};

use crate::next_rules::leads_rightly;
use pg_perm::{Action, DirKind, Draft, FwdClass, ReqClass, RowForm, RowLine, Rule, Who};
use pg_terms::{has_class, is, is_form_due, kind_is, request_of};

fn same_words(a: RowForm, b: RowForm) -> bool
    ensures { result ≡ rule.same_words a b }
{
    match (a, b) {
        (
            RowForm::Ask { request, who, .. },
            RowForm::Ask {
                request: other,
                who: sender,
                ..
            },
        ) => { request == other && who == sender }
        (
            RowForm::Evict { who, left },
            RowForm::Evict {
                who: sender,
                left: others,
            },
        ) => { who == sender && left == others }
        _ => false,
    }
}

fn has_row_line(above: &[RowLine], line: &RowLine) -> bool
    ensures { result ≡ rule.has_row_line above.now line.now }
{
    above.iter().any(|other| other.dir == line.dir && same_words(other.form, line.form))
}

fn is_not_due(draft: &Draft, line: &RowLine) -> bool
    ensures { result ≡ rule.is_not_due draft.now line.now }
{
    !is_form_due(draft, line.dir, line.form)
}

fn is_reply(action: Action) -> bool
    ensures { result ≡ rule.is_reply action }
{
    match action {
        Action::Reply(_) => true,
        _ => false,
    }
}

/// Whether the action passes the request on with a forward of a class.
fn forwards_by_class(class: FwdClass, draft: &Draft, action: Action) -> bool
    ensures { result ≡ rule.forwards_by_class class draft.now action }
{
    match action {
        Action::Forward(forward) => has_class(class, draft, forward),
        _ => false,
    }
}

fn reads_by(draft: &Draft, dir: u8, action: Action) -> bool
    ensures { result ≡ rule.reads_by draft.now dir action }
{
    (!kind_is(DirKind::Owned, draft, dir)
        || forwards_by_class(FwdClass::Share, draft, action)
        || forwards_by_class(FwdClass::Keep, draft, action)
        || forwards_by_class(FwdClass::Drop, draft, action))
        && (!kind_is(DirKind::Mixed, draft, dir)
            || forwards_by_class(FwdClass::Share, draft, action)
            || forwards_by_class(FwdClass::Keep, draft, action))
}

fn writes_by(draft: &Draft, dir: u8, who: Who, action: Action) -> bool
    ensures { result ≡ rule.writes_by draft.now dir who action }
{
    match who {
        Who::Other | Who::Sharer => {
            !(kind_is(DirKind::Owned, draft, dir) || kind_is(DirKind::Mixed, draft, dir))
                || forwards_by_class(FwdClass::Drop, draft, action)
        }
        Who::Owner => action == Action::Count,
    }
}

fn acts_wrongly(draft: &Draft, dir: u8, form: RowForm) -> bool
    ensures { result ≡ rule.acts_wrongly draft.now dir form }
{
    let RowForm::Ask {
        request,
        who,
        action,
    } = form
    else {
        return false;
    };
    ((kind_is(DirKind::Idle, draft, dir) || kind_is(DirKind::Shared, draft, dir))
        && !is_reply(action))
        || (is(request_of(draft, ReqClass::Read), request) && !reads_by(draft, dir, action))
        || (is(request_of(draft, ReqClass::Write), request) && !writes_by(draft, dir, who, action))
}

/// The first rule that a row line breaks.
pub fn row_rule(draft: &Draft, number: usize, line: &RowLine) -> Option<Rule>
    requires { number ≤ length draft.now.rows }
    ensures { result ≡ first_rule (rule.row_breaks draft.now number line.now) }
{
    if has_row_line(&draft.rows.as_slice()[..number], line) {
        return Some(Rule::S9);
    }
    if is_not_due(draft, line) {
        return Some(Rule::S15);
    }
    if acts_wrongly(draft, line.dir, line.form) {
        return Some(Rule::S16);
    }
    if !leads_rightly(draft, line, line.form) {
        return Some(Rule::S17);
    }
    None
}
