//! The rules that a take line breaks.
//!
//! S9: a case that an earlier line has.
//! S12: a pair that isn't due, or a reply or next state that the forward's class doesn't ask for.
//! S14: a keep line whose next state may get the keep forward and is led on to another state by it.
ghost use Rattle.std.specs.Prelude.{◌≡◌, ◌≤◌, length};
ghost use Rattle.pg_terms.specs.Rows as says;
ghost use Rattle.pg_shape.specs.TakeRules as rule;
ghost use Rattle.pg_shape.specs.FirstFaults.{first_rule};

use pg_perm::{Draft, FwdClass, Rule, TakeLine};
use pg_terms::{
    forward_of, has_class, is, is_clean_state, is_due, is_other, is_read_owner_state, keep_of, out,
    shared,
};

fn has_take_line(above: &[TakeLine], line: &TakeLine) -> bool
    ensures { result ≡ rule.has_take_line above.now line.now }
{
    above.iter().any(|other| other.state == line.state && other.forward == line.forward)
}

fn invalidates_wrongly(draft: &Draft, line: &TakeLine) -> bool
    ensures { result ≡ rule.invalidates_wrongly draft.now line.now }
{
    line.reply.is_some() || is_other(out(draft), line.next)
}

fn shares_wrongly(draft: &Draft, line: &TakeLine) -> bool
    ensures { result ≡ rule.shares_wrongly draft.now line.now }
{
    line.reply.is_none() || !is(shared(draft), line.next)
}

fn keeps_wrongly(draft: &Draft, line: &TakeLine) -> bool
    ensures { result ≡ rule.keeps_wrongly draft.now line.now }
{
    line.reply.is_none()
        || !is_read_owner_state(draft, line.next)
        || (is_clean_state(draft, line.next) && !is_clean_state(draft, line.state))
}

fn drops_wrongly(draft: &Draft, line: &TakeLine) -> bool
    ensures { result ≡ rule.drops_wrongly draft.now line.now }
{
    line.reply.is_none() || is_other(out(draft), line.next)
}

fn answers_wrongly(draft: &Draft, line: &TakeLine) -> bool
    ensures { result ≡ rule.answers_wrongly draft.now line.now }
{
    (has_class(FwdClass::Inv, draft, line.forward) && invalidates_wrongly(draft, line))
        || (has_class(FwdClass::Share, draft, line.forward) && shares_wrongly(draft, line))
        || (has_class(FwdClass::Keep, draft, line.forward) && keeps_wrongly(draft, line))
        || (has_class(FwdClass::Drop, draft, line.forward) && drops_wrongly(draft, line))
}

fn takes_wrongly(draft: &Draft, line: &TakeLine) -> bool
    ensures { result ≡ rule.takes_wrongly draft.now line.now }
{
    !is_due(draft, line.state, line.forward) || answers_wrongly(draft, line)
}

/// Whether a cache in this state may get the keep forward.
pub fn may_keep(draft: &Draft, state: u8) -> bool
    requires { length draft.now.messages ≤ 32 }
    ensures { result ≡ says.may_keep draft.now state }
{
    match forward_of(draft, FwdClass::Keep) {
        Some(keep) => is_due(draft, state, keep as u8),
        None => false,
    }
}

fn keeps_moving(draft: &Draft, line: &TakeLine) -> bool
    requires { length draft.now.messages ≤ 32 }
    ensures { result ≡ rule.keeps_moving draft.now line.now }
{
    has_class(FwdClass::Keep, draft, line.forward)
        && may_keep(draft, line.next)
        && keep_of(draft, line.next).is_some_and(|kept| kept != line.next)
}

/// The first rule that a take line breaks.
pub fn take_rule(draft: &Draft, number: usize, line: &TakeLine) -> Option<Rule>
    requires below { number ≤ length draft.now.takes }
    requires messages { length draft.now.messages ≤ 32 }
    ensures { result ≡ first_rule (rule.take_breaks draft.now number line.now) }
{
    if has_take_line(&draft.takes.as_slice()[..number], line) {
        return Some(Rule::S9);
    }
    if takes_wrongly(draft, line) {
        return Some(Rule::S12);
    }
    if keeps_moving(draft, line) {
        return Some(Rule::S14);
    }
    None
}
