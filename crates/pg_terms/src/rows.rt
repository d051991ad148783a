ghost use Rattle.std.specs.Prelude.{◌≡◌};
ghost use Rattle.std.specs.Option.{option_copied};
ghost use Rattle.pg_terms.specs.Rows as says;
ghost use Rattle.pg_terms.specs.Terms as term;

use crate::due::forward_in;
use crate::terms::{core_row, has_class, take_row};
use pg_perm::{
    Action, CacheLine, CoreForm, Draft, Event, FwdClass, Pair, Perm, ReplyName, RowForm, RowLine,
};

/// A permission allows an event: any but none allows a load, and write a store.
pub fn allows(event: Event, cache: &CacheLine) -> bool
    ensures { result ≡ says.allows event cache.now }
{
    match event {
        Event::Load => cache.perm != Perm::None,
        Event::Store => cache.perm == Perm::Write,
        Event::Evict => false,
    }
}

/// There is a cache state of this number, and its permission allows the event.
pub fn is_allowed(draft: &Draft, event: Event, state: u8) -> bool
    ensures { result ≡ term.cache_is (says.allows event) draft.now state }
{
    draft
        .caches
        .get(usize::from(state))
        .is_some_and(|cache| allows(event, cache))
}

fn pair_under(name: ReplyName, pairs: &[Pair]) -> Option<&Pair>
    ensures { option_copied result ≡ says.pair_under name pairs.now }
{
    pairs.iter().find(|pair| pair.reply == name)
}

/// The final state under a reply.
pub fn final_under(name: ReplyName, form: &CoreForm) -> Option<u8>
    ensures { result ≡ says.final_under name form.now }
{
    let CoreForm::Ask { pairs, .. } = form else {
        return None;
    };
    Some(pair_under(name, pairs.as_slice())?.fin)
}

/// The state in which a core ends that asked in this state and gets this reply.
pub fn final_state(draft: &Draft, state: u8, event: Event, name: ReplyName) -> Option<u8>
    ensures { result ≡ says.final_state draft.now state event name }
{
    let line = core_row(draft, state, event)?;
    final_under(name, &line.form)
}

/// The state that a store in this state leads to where it is a hit.
pub fn store_next(state: u8, event: Event, form: &CoreForm) -> Option<u8>
    ensures { result ≡ says.store_next state event form.now }
{
    match (event, form) {
        (Event::Store, CoreForm::Hit(None)) => Some(state),
        (Event::Store, CoreForm::Hit(Some(next))) => Some(*next),
        _ => None,
    }
}

/// What an owner in this state answers to a forward.
pub fn reply_to(draft: &Draft, state: u8, forward: u8) -> Option<u8>
    ensures { result ≡ says.reply_to draft.now state forward }
{
    take_row(draft, state, forward)?.reply
}

/// What the directory does with a request whose row has this form.
pub fn action_in(form: RowForm) -> Option<Action>
    ensures { result ≡ says.action_in form }
{
    match form {
        RowForm::Ask { action, .. } => Some(action),
        RowForm::Evict { .. } => None,
    }
}

/// Whether a row passes a request on by a share.
pub fn is_by_share(draft: &Draft, line: &RowLine) -> bool
    ensures { result ≡ says.is_by_share draft.now line.now }
{
    forward_in(line.form).is_some_and(|forward| has_class(FwdClass::Share, draft, forward))
}
