//! The rules that a core line breaks.
//!
//! S7: a form, a request, a reply or a final state that the event may not have in the state.
//! S9: a case that an earlier line has.
//! S10: a store hit to a state that is no dirty write owner, or that the directory tells apart.
//! S11: an evict by a request of another class than the state may use.
//! S19: a load that ends clean by a reply which a cache may send.
ghost use Rattle.std.specs.Prelude.{◌≡◌, ◌≤◌, length, not};
ghost use Rattle.std.specs.List.{list_any};
ghost use Rattle.pg_terms.specs.Terms as term;
ghost use Rattle.pg_terms.specs.Rows as says;
ghost use Rattle.pg_shape.specs.CoreRules as rule;
ghost use Rattle.pg_shape.specs.FirstFaults.{first_rule};

use pg_perm::{
    CacheLine, CoreForm, CoreLine, DirLine, Draft, Event, Pair, ReplyName, ReqClass, Role, Rule,
    Who,
};
use pg_terms::{
    allows, core_row, is, is_allowed, is_clean_state, is_load_reply, is_other, is_out,
    is_owner_state, is_reply, is_request_of, is_store_reply, is_write_owner, is_write_owner_state,
    lists_state, request_of, shared, store_next,
};

fn is_hit(form: &CoreForm) -> bool
    ensures { result ≡ rule.is_hit form.now }
{
    match form {
        CoreForm::Hit(_) => true,
        _ => false,
    }
}

fn is_out_state(draft: &Draft, state: u8) -> bool
    ensures { result ≡ term.cache_is (λ c. term.is_out c.role) draft.now state }
{
    draft
        .caches
        .get(usize::from(state))
        .is_some_and(|cache| is_out(cache.role))
}

fn leaves_out(draft: &Draft, line: &CoreLine) -> bool
    ensures { result ≡ rule.leaves_out draft.now line.now }
{
    line.event == Event::Evict && is_out_state(draft, line.state)
}

fn is_not_allowed(draft: &Draft, event: Event, state: u8) -> bool
    ensures { result ≡ term.cache_is (λ c. not (says.allows event c)) draft.now state }
{
    draft
        .caches
        .get(usize::from(state))
        .is_some_and(|cache| !allows(event, cache))
}

fn asks_needlessly(draft: &Draft, line: &CoreLine) -> bool
    ensures { result ≡ rule.asks_needlessly draft.now line.now }
{
    is_allowed(draft, line.event, line.state) && !is_hit(&line.form)
}

fn hits_without_perm(draft: &Draft, line: &CoreLine) -> bool
    ensures { result ≡ rule.hits_without_perm draft.now line.now }
{
    is_not_allowed(draft, line.event, line.state) && is_hit(&line.form)
}

fn moves_at_load(event: Event, form: &CoreForm) -> bool
    ensures { result ≡ rule.moves_at_load event form.now }
{
    match (event, form) {
        (Event::Load, CoreForm::Hit(Some(_))) => true,
        _ => false,
    }
}

fn class_of(event: Event) -> ReqClass
    ensures { result ≡ rule.class_of event }
{
    match event {
        Event::Load => ReqClass::Read,
        Event::Store => ReqClass::Write,
        Event::Evict => ReqClass::Clean,
    }
}

fn asks_otherwise(draft: &Draft, event: Event, form: &CoreForm) -> bool
    ensures { result ≡ rule.asks_otherwise draft.now event form.now }
{
    match form {
        CoreForm::Ask { request, .. } => { is_other(request_of(draft, class_of(event)), *request) }
        _ => false,
    }
}

fn is_asked_by_store(draft: &Draft, role: Role, name: ReplyName) -> bool
    ensures { result ≡ rule.is_asked_by_store draft.now role name }
{
    match (role, name) {
        (Role::Out, ReplyName::Reply(reply)) => { is_store_reply(draft, Who::Other, reply) }
        (Role::Shared, ReplyName::Reply(reply)) => { is_store_reply(draft, Who::Sharer, reply) }
        (Role::Owner, ReplyName::AckCount) => true,
        _ => false,
    }
}

fn is_asked_by_load(draft: &Draft, name: ReplyName) -> bool
    ensures { result ≡ rule.is_asked_by_load draft.now name }
{
    match name {
        ReplyName::Reply(reply) => is_load_reply(draft, reply),
        ReplyName::AckCount => false,
    }
}

/// Whether a core in a state of this role may get this reply at this event.
fn is_asked(draft: &Draft, role: Role, event: Event, name: ReplyName) -> bool
    ensures { result ≡ rule.is_asked draft.now role event name }
{
    match event {
        Event::Load => is_asked_by_load(draft, name),
        Event::Store => is_asked_by_store(draft, role, name),
        Event::Evict => false,
    }
}

fn names_reply(pairs: &[Pair], name: ReplyName) -> bool
    ensures { result ≡ rule.names_reply pairs.now name }
{
    pairs.iter().any(|pair| pair.reply == name)
}

fn names_twice(pairs: &[Pair]) -> bool
    ensures { result ≡ rule.names_twice pairs.now }
{
    let mut left = pairs;
    while let Some((pair, rest)) = left.split_first() {
        if names_reply(rest, pair.reply) {
            return true;
        }
        left = rest;
    }
    false
}

fn names_another(draft: &Draft, role: Role, event: Event, pairs: &[Pair]) -> bool
    ensures { result ≡ rule.names_another draft.now role event pairs.now }
{
    pairs
        .iter()
        .any(|pair| !is_asked(draft, role, event, pair.reply))
}

fn misses_reply_name(
    draft: &Draft,
    role: Role,
    event: Event,
    pairs: &[Pair],
    name: ReplyName,
) -> bool
    ensures { result ≡ rule.misses_reply_name draft.now role event pairs.now name }
{
    is_asked(draft, role, event, name) && !names_reply(pairs, name)
}

fn misses_below(draft: &Draft, role: Role, event: Event, pairs: &[Pair], below: u8) -> bool
    ensures { result ≡ rule.misses_below draft.now role event pairs.now below }
{
    let mut left = below;
    while left > 0 {
        left -= 1;
        if misses_reply_name(draft, role, event, pairs, ReplyName::Reply(left)) {
            return true;
        }
    }
    false
}

fn misses_reply(draft: &Draft, role: Role, event: Event, pairs: &[Pair]) -> bool
    requires { length draft.now.messages ≤ 32 }
    ensures { result ≡ rule.misses_reply draft.now role event pairs.now }
{
    misses_reply_name(draft, role, event, pairs, ReplyName::AckCount)
        || misses_below(draft, role, event, pairs, draft.messages.len() as u8)
}

fn names_wrongly(draft: &Draft, role: Role, event: Event, pairs: &[Pair]) -> bool
    requires { length draft.now.messages ≤ 32 }
    ensures { result ≡ rule.names_wrongly draft.now role event pairs.now }
{
    names_twice(pairs)
        || names_another(draft, role, event, pairs)
        || misses_reply(draft, role, event, pairs)
}

fn state_names_wrongly(draft: &Draft, state: u8, event: Event, pairs: &[Pair]) -> bool
    requires { length draft.now.messages ≤ 32 }
    ensures { result ≡ term.cache_is (λ c. rule.names_wrongly draft.now c.role event pairs.now) draft.now state }
{
    match draft.caches.get(usize::from(state)) {
        Some(cache) => names_wrongly(draft, cache.role, event, pairs),
        None => false,
    }
}

fn has_wrong_replies(draft: &Draft, state: u8, event: Event, form: &CoreForm) -> bool
    requires { length draft.now.messages ≤ 32 }
    ensures { result ≡ rule.has_wrong_replies draft.now state event form.now }
{
    match form {
        CoreForm::Ask { pairs, .. } => {
            request_of(draft, class_of(event)).is_some()
                && state_names_wrongly(draft, state, event, pairs.as_slice())
        }
        _ => false,
    }
}

fn is_no_load_final(draft: &Draft, state: u8) -> bool
    ensures { result ≡ rule.is_no_load_final draft.now state }
{
    !(is(shared(draft), state) || is_owner_state(draft, state))
}

fn is_dirty_writer(cache: &CacheLine) -> bool
    ensures { result ≡ rule.is_dirty_writer cache.now }
{
    is_write_owner(cache) && !cache.clean
}

fn is_dirty_writer_state(draft: &Draft, state: u8) -> bool
    ensures { result ≡ term.cache_is rule.is_dirty_writer draft.now state }
{
    draft
        .caches
        .get(usize::from(state))
        .is_some_and(is_dirty_writer)
}

fn stays_at_store(state: u8, form: &CoreForm) -> bool
    ensures { result ≡ rule.stays_at_store state form.now }
{
    match form {
        CoreForm::Hit(None) => true,
        CoreForm::Hit(Some(next)) => *next == state,
        _ => false,
    }
}

fn moves_at_store(draft: &Draft, state: u8) -> bool
    ensures { result ≡ rule.moves_at_store draft.now state }
{
    match core_row(draft, state, Event::Store) {
        Some(row) => !stays_at_store(state, &row.form),
        None => false,
    }
}

fn is_no_store_final(draft: &Draft, state: u8) -> bool
    ensures { result ≡ rule.is_no_store_final draft.now state }
{
    !is_dirty_writer_state(draft, state) || moves_at_store(draft, state)
}

fn ends_otherwise(state: u8, pairs: &[Pair]) -> bool
    ensures { result ≡ rule.ends_otherwise state pairs.now }
{
    pairs.iter().any(|pair| pair.fin != state)
}

fn ends_differ(pairs: &[Pair]) -> bool
    ensures { result ≡ rule.ends_differ pairs.now }
{
    match pairs.split_first() {
        Some((first, rest)) => ends_otherwise(first.fin, rest),
        None => false,
    }
}

fn has_no_load_final(draft: &Draft, pairs: &[Pair]) -> bool
    ensures { result ≡ list_any (λ p. rule.is_no_load_final draft.now p.fin) pairs.now }
{
    pairs.iter().any(|pair| is_no_load_final(draft, pair.fin))
}

fn has_no_store_final(draft: &Draft, pairs: &[Pair]) -> bool
    ensures { result ≡ list_any (λ p. rule.is_no_store_final draft.now p.fin) pairs.now }
{
    pairs.iter().any(|pair| is_no_store_final(draft, pair.fin))
}

fn ends_wrongly(draft: &Draft, event: Event, form: &CoreForm) -> bool
    ensures { result ≡ rule.ends_wrongly draft.now event form.now }
{
    match (event, form) {
        (Event::Load, CoreForm::Ask { pairs, .. }) => has_no_load_final(draft, pairs.as_slice()),
        (Event::Store, CoreForm::Ask { pairs, .. }) => {
            has_no_store_final(draft, pairs.as_slice()) || ends_differ(pairs.as_slice())
        }
        _ => false,
    }
}

/// One of the points of S7.
fn breaks_s7(draft: &Draft, line: &CoreLine) -> bool
    requires { length draft.now.messages ≤ 32 }
    ensures { result ≡ rule.breaks_s7 draft.now line.now }
{
    leaves_out(draft, line)
        || asks_needlessly(draft, line)
        || hits_without_perm(draft, line)
        || moves_at_load(line.event, &line.form)
        || asks_otherwise(draft, line.event, &line.form)
        || has_wrong_replies(draft, line.state, line.event, &line.form)
        || ends_wrongly(draft, line.event, &line.form)
}

fn has_core_line(above: &[CoreLine], line: &CoreLine) -> bool
    ensures { result ≡ rule.has_core_line above.now line.now }
{
    above.iter().any(|other| other.state == line.state && other.event == line.event)
}

fn tells_apart(state: u8, other: u8, line: &DirLine) -> bool
    ensures { result ≡ rule.tells_apart state other line.now }
{
    lists_state(line.beside.as_slice(), state) != lists_state(line.beside.as_slice(), other)
}

fn are_parted(draft: &Draft, state: u8, other: u8) -> bool
    ensures { result ≡ list_any (rule.tells_apart state other) draft.now.dirs }
{
    draft
        .dirs
        .as_slice()
        .iter()
        .any(|line| tells_apart(state, other, line))
}

fn hits_wrongly(draft: &Draft, line: &CoreLine) -> bool
    ensures { result ≡ rule.hits_wrongly draft.now line.now }
{
    match store_next(line.state, line.event, &line.form) {
        Some(next) => {
            is_write_owner_state(draft, line.state)
                && (!is_dirty_writer_state(draft, next) || are_parted(draft, line.state, next))
        }
        None => false,
    }
}

fn asks_class(class: ReqClass, draft: &Draft, message: u8) -> bool
    ensures { result ≡ rule.asks_class class draft.now message }
{
    draft
        .messages
        .get(usize::from(message))
        .is_some_and(|line| is_request_of(class, line.class))
}

fn leaves_by_another(draft: &Draft, role: Role, clean: bool, request: u8) -> bool
    ensures { result ≡ rule.leaves_by_another draft.now role clean request }
{
    match role {
        Role::Out => false,
        Role::Shared => !asks_class(ReqClass::Clean, draft, request),
        Role::Owner => {
            !(asks_class(ReqClass::Dirty, draft, request)
                || (clean && asks_class(ReqClass::Clean, draft, request)))
        }
    }
}

fn leaves_wrongly(draft: &Draft, state: u8, form: &CoreForm) -> bool
    ensures { result ≡ rule.leaves_wrongly draft.now state form.now }
{
    match (draft.caches.get(usize::from(state)), form) {
        (Some(cache), CoreForm::Leave { request }) => {
            leaves_by_another(draft, cache.role, cache.clean, *request)
        }
        _ => false,
    }
}

fn is_sent(draft: &Draft, reply: u8) -> bool
    ensures { result ≡ rule.is_sent draft.now reply }
{
    draft
        .takes
        .as_slice()
        .iter()
        .any(|take| is_reply(take, reply))
}

fn is_from_cache(draft: &Draft, name: ReplyName) -> bool
    ensures { result ≡ rule.is_from_cache draft.now name }
{
    match name {
        ReplyName::Reply(reply) => is_sent(draft, reply),
        ReplyName::AckCount => false,
    }
}

fn is_unclean(draft: &Draft, pair: Pair) -> bool
    ensures { result ≡ rule.is_unclean draft.now pair }
{
    is_clean_state(draft, pair.fin) && is_from_cache(draft, pair.reply)
}

fn has_unclean(draft: &Draft, pairs: &[Pair]) -> bool
    ensures { result ≡ list_any (rule.is_unclean draft.now) pairs.now }
{
    pairs.iter().any(|pair| is_unclean(draft, *pair))
}

fn ends_unclean(draft: &Draft, event: Event, form: &CoreForm) -> bool
    ensures { result ≡ rule.ends_unclean draft.now event form.now }
{
    match (event, form) {
        (Event::Load, CoreForm::Ask { pairs, .. }) => has_unclean(draft, pairs.as_slice()),
        _ => false,
    }
}

/// The first rule that a core line breaks.
pub fn core_rule(draft: &Draft, number: usize, line: &CoreLine) -> Option<Rule>
    requires below { number ≤ length draft.now.cores }
    requires messages { length draft.now.messages ≤ 32 }
    ensures { result ≡ first_rule (rule.core_breaks draft.now number line.now) }
{
    if breaks_s7(draft, line) {
        return Some(Rule::S7);
    }
    if has_core_line(&draft.cores.as_slice()[..number], line) {
        return Some(Rule::S9);
    }
    if hits_wrongly(draft, line) {
        return Some(Rule::S10);
    }
    if leaves_wrongly(draft, line.state, &line.form) {
        return Some(Rule::S11);
    }
    if ends_unclean(draft, line.event, &line.form) {
        return Some(Rule::S19);
    }
    None
}
