//! What is done while a load or a store is outstanding.
ghost use Rattle.std.specs.Prelude.{◌≡◌, [], ◌∷◌, ◌++◌, IfOk};
ghost use Rattle.std.specs.Option.{option_and_then};
ghost use Rattle.pg_perm.specs.declared.kinds.Mode.{Mode};
ghost use Rattle.pg_terms.specs.Rows as says;
ghost use Rattle.pg_table.specs.Choices as may;
ghost use Rattle.pg_table.specs.Descriptors as of;
ghost use Rattle.pg_table.specs.GeneratedStates.{choice_of_mode};

use crate::choice::{Choice, Chosen, step};
use crate::forwards::{answer_choice, is_earlier, later_choice};
use crate::tag_ends::{end_under_tag, pairs_of};
use pg_perm::{Event, Mode, ReplyName, Sequence};
use pg_shape::Protocol;
use pg_table::{Act, Desc, Input, Phase, Tag};
use pg_terms as terms;
use std::alloc::{AllocError, Global};

/// The acts with which an operation is done, and the later forwards that were put off are answered.
fn done(alloc: Global, tag: Tag, acts: &[Act]) -> Result<Vec<Act>, AllocError>
    ensures { IfOk result (λ all. all.items ≡ acts.now ++ Act.Done ∷ [] ++ may.serve_acts tag) }
{
    let mut all = Vec::new(alloc);
    all.extend_from_slice(acts)?;
    all.push(Act::Done)?;
    if tag != Tag::Plain {
        all.push(Act::Serve)?;
    }
    Ok(all)
}

/// The operation is done, and ends where its tag tells.
fn end_choice(alloc: Global, protocol: &Protocol, tag: Tag, acts: &[Act], fin: Option<u8>) -> Chosen
    ensures { IfOk result (λ c. (mode : Mode) → c ≡ choice_of_mode mode (may.end_choices protocol.now tag acts.now fin)) }
{
    let Some(next) = after_if(protocol, tag, fin) else {
        return Ok(None);
    };
    Ok(Some(Choice {
        acts: Sequence::from(done(alloc, tag, acts)?),
        next: Desc::Stable(next),
    }))
}

fn after_if(protocol: &Protocol, tag: Tag, fin: Option<u8>) -> Option<u8>
    ensures { result ≡ option_and_then (λ x. of.end_under_tag protocol.now x tag) fin }
{
    end_under_tag(protocol, fin?, tag)
}

/// A step on which the operation goes on waiting; it comes only where there is a shared state.
fn waits(alloc: Global, protocol: &Protocol, acts: &[Act], next: Desc) -> Chosen
    ensures { IfOk result (λ c. (mode : Mode) → c ≡ choice_of_mode mode (may.choices_if_shared protocol.now (may.only_choice acts.now next))) }
{
    match protocol.shared() {
        Some(_) => step(alloc, acts, next),
        None => Ok(None),
    }
}

fn store(start: u8, phase: Phase, tag: Tag) -> Desc
    ensures { result ≡ Desc.Ask Event.Store start phase tag }
{
    Desc::Ask {
        event: Event::Store,
        start,
        phase,
        tag,
    }
}

/// What is done while a load is outstanding.
pub fn when_loading(
    alloc: Global,
    protocol: &Protocol,
    mode: Mode,
    start: u8,
    tag: Tag,
    input: Input,
) -> Chosen
    ensures { IfOk result (λ c. c ≡ choice_of_mode mode (may.when_loading protocol.now start tag input)) }
{
    match input {
        Input::DataAll(reply) => {
            let fin = terms::final_state(
                protocol.draft(),
                start,
                Event::Load,
                ReplyName::Reply(reply),
            );
            end_choice(alloc, protocol, tag, &[Act::Fill], fin)
        }
        Input::Forward(forward) => later_choice(
            alloc,
            protocol,
            mode,
            start,
            Event::Load,
            Phase::D,
            tag,
            forward,
        ),
        _ => Ok(None),
    }
}

/// Takes data whose count isn't that of the acknowledgements so far.
fn takes_part(alloc: Global, protocol: &Protocol, start: u8, tag: Tag, reply: u8) -> Chosen
    ensures { IfOk result (λ c. (mode : Mode) → c ≡ choice_of_mode mode (may.choices_if_shared protocol.now (may.choices_if_some (says.final_state protocol.now start Event.Store (ReplyName.Reply reply)) (λ x. may.only_choice (Act.Fill ∷ Act.Need ∷ []) (Desc.Ask Event.Store start Phase.A tag))))) }
{
    match terms::final_state(
        protocol.draft(),
        start,
        Event::Store,
        ReplyName::Reply(reply),
    ) {
        Some(_) => waits(
            alloc,
            protocol,
            &[Act::Fill, Act::Need],
            store(start, Phase::A, tag),
        ),
        None => Ok(None),
    }
}

/// Answers a forward that is earlier than a store as where the store began.
fn earlier_choice(alloc: Global, protocol: &Protocol, start: u8, forward: u8) -> Chosen
    ensures { IfOk result (λ c. (mode : Mode) → c ≡ choice_of_mode mode (may.earlier_choices protocol.now start forward)) }
{
    let at = Desc::Ask {
        event: Event::Store,
        start,
        phase: Phase::Ad,
        tag: Tag::Plain,
    };
    answer_choice(alloc, protocol, at, start, forward)
}

/// Answers a forward that is earlier than a store which waits for data, and lets a later one wait or takes it.
fn meets(alloc: Global, protocol: &Protocol, mode: Mode, start: u8, tag: Tag, forward: u8) -> Chosen
    ensures { IfOk result (λ c. c ≡ choice_of_mode mode (may.when_storing protocol.now start tag (Input.Forward forward))) }
{
    if is_earlier(protocol, start, tag, forward) {
        earlier_choice(alloc, protocol, start, forward)
    } else {
        later_choice(
            alloc,
            protocol,
            mode,
            start,
            Event::Store,
            Phase::Ad,
            tag,
            forward,
        )
    }
}

/// What is done while a store waits for data.
pub fn when_storing(
    alloc: Global,
    protocol: &Protocol,
    mode: Mode,
    start: u8,
    tag: Tag,
    input: Input,
) -> Chosen
    ensures { IfOk result (λ c. c ≡ choice_of_mode mode (may.when_storing protocol.now start tag input)) }
{
    match input {
        Input::DataAll(reply) => {
            let fin = terms::final_state(
                protocol.draft(),
                start,
                Event::Store,
                ReplyName::Reply(reply),
            );
            end_choice(alloc, protocol, tag, &[Act::Fill], fin)
        }
        Input::DataPart(reply) => takes_part(alloc, protocol, start, tag, reply),
        Input::AckMore => waits(alloc, protocol, &[Act::Count], store(start, Phase::Ad, tag)),
        Input::Forward(forward) => meets(alloc, protocol, mode, start, tag, forward),
        _ => Ok(None),
    }
}

/// What is done while a store of an owner waits for a count.
pub fn when_upgrading(alloc: Global, protocol: &Protocol, start: u8, input: Input) -> Chosen
    ensures { IfOk result (λ c. (mode : Mode) → c ≡ choice_of_mode mode (may.when_upgrading protocol.now start input)) }
{
    match input {
        Input::CountAll => {
            let fin = terms::final_state(
                protocol.draft(),
                start,
                Event::Store,
                ReplyName::AckCount,
            );
            end_choice(alloc, protocol, Tag::Plain, &[], fin)
        }
        Input::CountPart => waits(
            alloc,
            protocol,
            &[Act::Need],
            store(start, Phase::A, Tag::Plain),
        ),
        Input::AckMore => waits(
            alloc,
            protocol,
            &[Act::Count],
            store(start, Phase::Ac, Tag::Plain),
        ),
        Input::Forward(forward) => earlier_choice(alloc, protocol, start, forward),
        _ => Ok(None),
    }
}

/// The one state in which a store ends that began in this state.
fn store_final(protocol: &Protocol, start: u8) -> Option<u8>
    ensures { result ≡ may.store_final (of.final_states protocol.now start Event.Store) }
{
    Some(pairs_of(protocol, start, Event::Store).first()?.fin)
}

/// What is done while a store waits for acknowledgements alone.
pub fn when_waiting(
    alloc: Global,
    protocol: &Protocol,
    mode: Mode,
    start: u8,
    tag: Tag,
    input: Input,
) -> Chosen
    ensures { IfOk result (λ c. c ≡ choice_of_mode mode (may.when_waiting protocol.now start tag input)) }
{
    match input {
        Input::AckMore => step(alloc, &[Act::Count], store(start, Phase::A, tag)),
        Input::AckLast => {
            let fin = store_final(protocol, start);
            end_choice(alloc, protocol, tag, &[Act::Count], fin)
        }
        Input::Forward(forward) => later_choice(
            alloc,
            protocol,
            mode,
            start,
            Event::Store,
            Phase::A,
            tag,
            forward,
        ),
        _ => Ok(None),
    }
}
