ghost use Rattle.std.specs.Prelude.{◌≡◌};
ghost use Rattle.std.specs.Option.{option_copied, option_and_then};
ghost use Rattle.pg_terms.specs.Terms as term;

use crate::cases::DirCase;
use pg_perm::{
    CacheLine, CoreLine, Draft, Event, FwdClass, MsgClass, Perm, ReqClass, Role, RowForm, RowLine,
    TakeLine,
};

pub fn is_out(role: Role) -> bool
    ensures { result ≡ term.is_out role }
{
    role == Role::Out
}

pub fn is_shared(role: Role) -> bool
    ensures { result ≡ term.is_shared role }
{
    role == Role::Shared
}

pub fn is_owner(role: Role) -> bool
    ensures { result ≡ term.is_owner role }
{
    role == Role::Owner
}

pub fn is_request_of(class: ReqClass, message: MsgClass) -> bool
    ensures { result ≡ term.is_request_of class message }
{
    message == MsgClass::Request(class)
}

pub fn is_forward_of(class: FwdClass, message: MsgClass) -> bool
    ensures { result ≡ term.is_forward_of class message }
{
    message == MsgClass::Forward(class)
}

/// There is such a state or message, found by its place among the lines of its kind, and it is this one.
pub fn is(first: Option<usize>, number: u8) -> bool
    ensures { result ≡ term.is first number }
{
    first == Some(usize::from(number))
}

/// There is such a state or message, found by its place among the lines of its kind, and it is another one.
pub fn is_other(first: Option<usize>, number: u8) -> bool
    ensures { result ≡ term.is_other first number }
{
    first.is_some_and(|first| first != usize::from(number))
}

pub fn is_write_owner(cache: &CacheLine) -> bool
    ensures { result ≡ term.is_write_owner cache.now }
{
    is_owner(cache.role) && cache.perm == Perm::Write
}

pub fn is_read_owner(cache: &CacheLine) -> bool
    ensures { result ≡ term.is_read_owner cache.now }
{
    is_owner(cache.role) && cache.perm == Perm::Read
}

pub fn is_owner_state(draft: &Draft, state: u8) -> bool
    ensures { result ≡ term.cache_is (λ c. term.is_owner c.role) draft.now state }
{
    draft
        .caches
        .get(usize::from(state))
        .is_some_and(|cache| is_owner(cache.role))
}

pub fn is_read_owner_state(draft: &Draft, state: u8) -> bool
    ensures { result ≡ term.cache_is term.is_read_owner draft.now state }
{
    draft
        .caches
        .get(usize::from(state))
        .is_some_and(is_read_owner)
}

pub fn is_write_owner_state(draft: &Draft, state: u8) -> bool
    ensures { result ≡ term.cache_is term.is_write_owner draft.now state }
{
    draft
        .caches
        .get(usize::from(state))
        .is_some_and(is_write_owner)
}

pub fn is_clean_state(draft: &Draft, state: u8) -> bool
    ensures { result ≡ term.cache_is (λ c. c.clean) draft.now state }
{
    draft
        .caches
        .get(usize::from(state))
        .is_some_and(|cache| cache.clean)
}

/// The out state: the first of its role, by its place among the cache states, which is its number.
pub fn out(draft: &Draft) -> Option<usize>
    ensures { result ≡ term.out draft.now }
{
    draft
        .caches
        .as_slice()
        .iter()
        .position(|cache| is_out(cache.role))
}

/// The shared state: the first of its role, by its place.
pub fn shared(draft: &Draft) -> Option<usize>
    ensures { result ≡ term.shared draft.now }
{
    draft
        .caches
        .as_slice()
        .iter()
        .position(|cache| is_shared(cache.role))
}

pub fn perm_of(draft: &Draft, state: u8) -> Option<Perm>
    ensures { result ≡ term.perm_of draft.now state }
{
    Some(draft.caches.get(usize::from(state))?.perm)
}

/// The first request of a class, by its place among the messages.
pub fn request_of(draft: &Draft, class: ReqClass) -> Option<usize>
    ensures { result ≡ term.request_of draft.now class }
{
    draft
        .messages
        .as_slice()
        .iter()
        .position(|message| is_request_of(class, message.class))
}

/// The first forward of a class, by its place among the messages.
pub fn forward_of(draft: &Draft, class: FwdClass) -> Option<usize>
    ensures { result ≡ term.forward_of draft.now class }
{
    draft
        .messages
        .as_slice()
        .iter()
        .position(|message| is_forward_of(class, message.class))
}

/// There is a forward of this number, and it is of the class.
pub fn has_class(class: FwdClass, draft: &Draft, forward: u8) -> bool
    ensures { result ≡ term.has_class class draft.now forward }
{
    draft
        .messages
        .get(usize::from(forward))
        .is_some_and(|message| is_forward_of(class, message.class))
}

/// The cache states that a directory state lists.
pub fn listed_states(draft: &Draft, dir: u8) -> &[u8]
    ensures { result.now ≡ term.listed_states draft.now dir }
{
    match draft.dirs.get(usize::from(dir)) {
        Some(line) => line.beside.as_slice(),
        None => &[],
    }
}

pub fn lists_state(states: &[u8], state: u8) -> bool
    ensures { result ≡ term.lists_state states.now state }
{
    states.iter().any(|listed| *listed == state)
}

/// Whether a directory state lists a cache state.
pub fn lists(draft: &Draft, dir: u8, state: u8) -> bool
    ensures { result ≡ term.lists draft.now dir state }
{
    lists_state(listed_states(draft, dir), state)
}

pub fn core_row<'a>(draft: &'a Draft, state: u8, event: Event) -> Option<&'a CoreLine>
    ensures { option_copied result ≡ term.core_row draft.now state event }
{
    draft
        .cores
        .as_slice()
        .iter()
        .find(|line| line.state == state && line.event == event)
}

/// The take row of a state for the message at a place.
fn take_row_at<'a>(draft: &'a Draft, state: u8, place: usize) -> Option<&'a TakeLine>
    ensures { option_copied result ≡ term.take_row draft.now state place }
{
    draft.takes.as_slice().iter().find(|line| line.state == state
        && usize::from(line.forward) == place)
}

pub fn take_row<'a>(draft: &'a Draft, state: u8, forward: u8) -> Option<&'a TakeLine>
    ensures { option_copied result ≡ term.take_row draft.now state forward }
{
    take_row_at(draft, state, usize::from(forward))
}

/// The take row of a state for the first forward of a class.
fn take_row_of<'a>(draft: &'a Draft, state: u8, class: FwdClass) -> Option<&'a TakeLine>
    ensures { option_copied result ≡ option_and_then (λ f. term.take_row draft.now state f) (term.forward_of draft.now class) }
{
    let place = forward_of(draft, class)?;
    take_row_at(draft, state, place)
}

/// Whether a row line of this form is for a case.
pub fn is_case(draft: &Draft, form: RowForm, at: DirCase) -> bool
    ensures { result ≡ term.is_case draft.now form at }
{
    match (form, at) {
        (RowForm::Ask { request, who, .. }, DirCase::Ask(class, sender)) => {
            is(request_of(draft, class), request) && who == sender
        }
        (RowForm::Evict { who, left }, DirCase::Evict(sender, others)) => {
            who == sender && left == others
        }
        _ => false,
    }
}

pub fn dir_row<'a>(draft: &'a Draft, dir: u8, at: DirCase) -> Option<&'a RowLine>
    ensures { option_copied result ≡ term.dir_row draft.now dir at }
{
    draft
        .rows
        .as_slice()
        .iter()
        .find(|line| line.dir == dir && is_case(draft, line.form, at))
}

/// The state that the keep forward leads this state to.
pub fn keep_of(draft: &Draft, state: u8) -> Option<u8>
    ensures { result ≡ term.keep_of draft.now state }
{
    Some(take_row_of(draft, state, FwdClass::Keep)?.next)
}
