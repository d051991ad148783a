//! What is done with a forward.
ghost use Rattle.std.specs.Prelude.{◌≡◌, ◌&&◌, false, if◌then◌else◌, IfOk};
ghost use Rattle.std.specs.List.{list_any};
ghost use Rattle.std.specs.Option.{option_map_or};
ghost use Rattle.pg_perm.specs.declared.kinds.Mode.{Mode};
ghost use Rattle.pg_terms.specs.Terms as term;
ghost use Rattle.pg_terms.specs.Due as due;
ghost use Rattle.pg_terms.specs.Rows as says;
ghost use Rattle.pg_table.specs.Choices as may;
ghost use Rattle.pg_table.specs.GeneratedStates.{choice_of_mode};
ghost use Rattle.pg_infer.specs.Moves.{desc_moved_to as moved_to};
ghost use Rattle.pg_infer.specs.Race as race;

use crate::choice::{Choice, Chosen, step};
use crate::tag_ends::{pairs_of, store_phase};
use pg_perm::{Event, FwdClass, Mode, MsgClass, Pair, Role, Sequence, Side};
use pg_race::order;
use pg_shape::Protocol;
use pg_table::{Act, Desc, Phase, Tag};
use pg_terms as terms;
use std::alloc::{AllocError, Global};

/// The answer of a forward, with the reply of its take row.
fn answer_acts(
    alloc: Global,
    protocol: &Protocol,
    forward: u8,
    reply: Option<u8>,
) -> Result<Vec<Act>, AllocError>
    ensures { IfOk result (λ acts. acts.items ≡ may.answer_acts protocol.now forward reply) }
{
    let mut acts = Vec::new(alloc);
    if terms::has_class(FwdClass::Inv, protocol.draft(), forward) {
        acts.push(Act::Ack)?;
        return Ok(acts);
    }
    if let Some(reply) = reply {
        acts.push(Act::Give(reply))?;
    }
    if terms::has_class(FwdClass::Share, protocol.draft(), forward) {
        acts.push(Act::Wb)?;
    }
    Ok(acts)
}

/// The state once a forward that is earlier than the outstanding operation has led the cache to this stable state.
fn desc_moved_to(protocol: &Protocol, at: Desc, to: u8) -> Desc
    ensures { result ≡ moved_to protocol.now at to }
{
    match at {
        Desc::Stable(_) => Desc::Stable(to),
        Desc::Ask { .. } => Desc::Ask {
            event: Event::Store,
            start: to,
            phase: store_phase(protocol, to),
            tag: Tag::Plain,
        },
        Desc::Leave(_) => Desc::Leave(to),
    }
}

/// Answers a forward as in the stable state `state`, on which the state `at` stands.
pub fn answer_choice(alloc: Global, protocol: &Protocol, at: Desc, state: u8, forward: u8) -> Chosen
    ensures { IfOk result (λ c. (mode : Mode) → c ≡ choice_of_mode mode (may.answer_choices protocol.now state forward (moved_to protocol.now at))) }
{
    if !protocol.due(state, forward) {
        return Ok(None);
    }
    let Some(line) = protocol.take_row(state, forward) else {
        return Ok(None);
    };
    Ok(Some(Choice {
        acts: Sequence::from(answer_acts(alloc, protocol, forward, line.reply)?),
        next: desc_moved_to(protocol, at, line.next),
    }))
}

fn any_due(protocol: &Protocol, pairs: &[Pair], forward: u8) -> bool
    ensures { result ≡ list_any (λ p. due.is_due protocol.now p.fin forward) pairs.now }
{
    pairs.iter().any(|pair| protocol.due(pair.fin, forward))
}

fn is_due_once_kept(protocol: &Protocol, state: u8, forward: u8) -> bool
    ensures { result ≡ (says.may_keep protocol.now state && option_map_or (λ k. due.is_due protocol.now k forward) (term.keep_of protocol.now state) false) }
{
    protocol.may_keep(state)
        && match terms::keep_of(protocol.draft(), state) {
            Some(kept) => protocol.due(kept, forward),
            None => false,
        }
}

fn any_due_once_kept(protocol: &Protocol, pairs: &[Pair], forward: u8) -> bool
    ensures { result ≡ list_any (λ p. says.may_keep protocol.now p.fin && option_map_or (λ k. due.is_due protocol.now k forward) (term.keep_of protocol.now p.fin) false) pairs.now }
{
    pairs
        .iter()
        .any(|pair| is_due_once_kept(protocol, pair.fin, forward))
}

fn is_later_plain(protocol: &Protocol, start: u8, event: Event, forward: u8) -> bool
    ensures { result ≡ may.is_later protocol.now start event Tag.Plain forward }
{
    any_due(protocol, pairs_of(protocol, start, event), forward)
}

fn is_later_kept(protocol: &Protocol, start: u8, event: Event, forward: u8) -> bool
    ensures { result ≡ may.is_later protocol.now start event Tag.Kept forward }
{
    any_due_once_kept(protocol, pairs_of(protocol, start, event), forward)
}

/// Whether a forward may come that is later than an operation that began in this state.
fn is_later(protocol: &Protocol, start: u8, event: Event, tag: Tag, forward: u8) -> bool
    ensures { result ≡ may.is_later protocol.now start event tag forward }
{
    match tag {
        Tag::Plain => is_later_plain(protocol, start, event, forward),
        Tag::Kept => is_later_kept(protocol, start, event, forward),
        Tag::Gave | Tag::Gone => false,
    }
}

/// The tag once this later forward has come.
fn tag_by(protocol: &Protocol, forward: u8) -> Tag
    ensures { result ≡ may.tag_by protocol.now forward }
{
    if terms::has_class(FwdClass::Share, protocol.draft(), forward) {
        Tag::Gave
    } else if terms::has_class(FwdClass::Keep, protocol.draft(), forward) {
        Tag::Kept
    } else {
        Tag::Gone
    }
}

/// What takes a later forward where it doesn't wait.
fn taking(protocol: &Protocol, forward: u8) -> Act
    ensures { result ≡ (if term.has_class FwdClass.Inv protocol.now forward then Act.Ack else Act.Defer) }
{
    if terms::has_class(FwdClass::Inv, protocol.draft(), forward) {
        Act::Ack
    } else {
        Act::Defer
    }
}

/// Lets a forward that is later than the outstanding operation wait, or takes it.
pub fn later_choice(
    alloc: Global,
    protocol: &Protocol,
    mode: Mode,
    start: u8,
    event: Event,
    phase: Phase,
    tag: Tag,
    forward: u8,
) -> Chosen
    ensures { IfOk result (λ c. c ≡ choice_of_mode mode (may.later_choices protocol.now start event phase tag forward)) }
{
    if !is_later(protocol, start, event, tag, forward) {
        return Ok(None);
    }
    let (act, tag) = match mode {
        Mode::Stall => (Act::Stall, tag),
        Mode::Defer => (taking(protocol, forward), tag_by(protocol, forward)),
    };
    let next = Desc::Ask {
        event,
        start,
        phase,
        tag,
    };
    step(alloc, &[act], next)
}

/// The role of a state in which a store that waits for data began: it is shared, or out.
fn role_of_start(protocol: &Protocol, start: u8) -> Role
    ensures { result ≡ race.role_of_start protocol.now start }
{
    if terms::is(terms::shared(protocol.draft()), start) {
        Role::Shared
    } else {
        Role::Out
    }
}

fn class_in(message: MsgClass) -> Option<FwdClass>
    ensures { result ≡ race.class_in message }
{
    match message {
        MsgClass::Forward(class) => Some(class),
        _ => None,
    }
}

fn class_of(protocol: &Protocol, forward: u8) -> Option<FwdClass>
    ensures { result ≡ race.class_of protocol.now forward }
{
    let line = protocol.draft().messages.get(usize::from(forward))?;
    class_in(line.class)
}

fn is_before(side: Side) -> bool
    ensures { result ≡ race.is_before side }
{
    match side {
        Side::Before => true,
        Side::After => false,
    }
}

fn is_tagged(tag: Tag) -> bool
    ensures { result ≡ race.is_tagged tag }
{
    match tag {
        Tag::Plain => false,
        _ => true,
    }
}

/// Whether a forward is earlier than a store that waits for data, in the race order.
pub fn is_earlier(protocol: &Protocol, start: u8, tag: Tag, forward: u8) -> bool
    ensures { result ≡ may.is_earlier protocol.now start tag forward }
{
    match class_of(protocol, forward) {
        Some(class) => is_before(order(
            role_of_start(protocol, start),
            Event::Store,
            is_tagged(tag),
            class,
        )),
        None => false,
    }
}
