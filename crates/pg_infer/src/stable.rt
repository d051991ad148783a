//! What is done in a stable state, and in one that evicts.
ghost use Rattle.std.specs.Prelude.{◌≡◌, [], ◌∷◌, IfOk};
ghost use Rattle.std.specs.Option.{option_and_then};
ghost use Rattle.pg_perm.specs.declared.kinds.Mode.{Mode};
ghost use Rattle.pg_terms.specs.Terms as term;
ghost use Rattle.pg_terms.specs.Rows as says;
ghost use Rattle.pg_table.specs.Choices as may;
ghost use Rattle.pg_table.specs.Descriptors as of;
ghost use Rattle.pg_table.specs.GeneratedStates.{choice_of_mode};

use crate::choice::{Chosen, step};
use crate::forwards::answer_choice;
use crate::tag_ends::{out_state, store_phase};
use pg_perm::{CoreForm, Event, ReqClass};
use pg_shape::Protocol;
use pg_table::{Act, Desc, Input, Phase, Tag};
use pg_terms as terms;
use std::alloc::Global;

fn by_load(alloc: Global, protocol: &Protocol, state: u8) -> Chosen
    ensures { IfOk result (λ c. (mode : Mode) → c ≡ choice_of_mode mode (may.by_load protocol.now state)) }
{
    if terms::is_allowed(protocol.draft(), Event::Load, state) {
        return step(alloc, &[Act::Hit], Desc::Stable(state));
    }
    let Some(request) = protocol.request_of(ReqClass::Read) else {
        return Ok(None);
    };
    let next = Desc::Ask {
        event: Event::Load,
        start: out_state(protocol),
        phase: Phase::D,
        tag: Tag::Plain,
    };
    step(alloc, &[Act::Send(request)], next)
}

/// Where a store that hits leads.
fn hit_next(protocol: &Protocol, state: u8) -> Option<u8>
    ensures { result ≡ option_and_then (λ l. says.store_next state Event.Store l.form) (term.core_row protocol.now state Event.Store) }
{
    let line = terms::core_row(protocol.draft(), state, Event::Store)?;
    terms::store_next(state, Event::Store, &line.form)
}

fn hit(alloc: Global, protocol: &Protocol, state: u8) -> Chosen
    ensures { IfOk result (λ c. (mode : Mode) → c ≡ choice_of_mode mode (may.choices_if_some (option_and_then (λ l. says.store_next state Event.Store l.form) (term.core_row protocol.now state Event.Store)) (λ t. may.only_choice (Act.Hit ∷ []) (Desc.Stable t)))) }
{
    match hit_next(protocol, state) {
        Some(next) => step(alloc, &[Act::Hit], Desc::Stable(next)),
        None => Ok(None),
    }
}

fn ask_to_write(alloc: Global, protocol: &Protocol, state: u8) -> Chosen
    ensures { IfOk result (λ c. (mode : Mode) → c ≡ choice_of_mode mode (may.choices_if_some (term.request_of protocol.now ReqClass.Write) (λ q. may.only_choice (Act.Send q ∷ []) (Desc.Ask Event.Store state (of.store_phase protocol.now state) Tag.Plain)))) }
{
    let Some(request) = protocol.request_of(ReqClass::Write) else {
        return Ok(None);
    };
    let next = Desc::Ask {
        event: Event::Store,
        start: state,
        phase: store_phase(protocol, state),
        tag: Tag::Plain,
    };
    step(alloc, &[Act::Send(request)], next)
}

fn by_store(alloc: Global, protocol: &Protocol, state: u8) -> Chosen
    ensures { IfOk result (λ c. (mode : Mode) → c ≡ choice_of_mode mode (may.by_store protocol.now state)) }
{
    if terms::is_allowed(protocol.draft(), Event::Store, state) {
        hit(alloc, protocol, state)
    } else {
        ask_to_write(alloc, protocol, state)
    }
}

fn evict_request_in(form: &CoreForm) -> Option<u8>
    ensures { result ≡ may.evict_request_in form.now }
{
    match form {
        CoreForm::Leave { request } => Some(*request),
        _ => None,
    }
}

fn evict_request(protocol: &Protocol, state: u8) -> Option<u8>
    ensures { result ≡ option_and_then (λ l. may.evict_request_in l.form) (term.core_row protocol.now state Event.Evict) }
{
    let line = terms::core_row(protocol.draft(), state, Event::Evict)?;
    evict_request_in(&line.form)
}

fn by_evict(alloc: Global, protocol: &Protocol, state: u8) -> Chosen
    ensures { IfOk result (λ c. (mode : Mode) → c ≡ choice_of_mode mode (may.by_evict protocol.now state)) }
{
    if terms::is(terms::out(protocol.draft()), state) {
        return step(alloc, &[Act::Skip], Desc::Stable(state));
    }
    match evict_request(protocol, state) {
        Some(request) => step(alloc, &[Act::Send(request)], Desc::Leave(state)),
        None => Ok(None),
    }
}

/// What is done in a stable state.
pub fn when_stable(alloc: Global, protocol: &Protocol, state: u8, input: Input) -> Chosen
    ensures { IfOk result (λ c. (mode : Mode) → c ≡ choice_of_mode mode (may.when_stable protocol.now state input)) }
{
    match input {
        Input::Core(Event::Load) => by_load(alloc, protocol, state),
        Input::Core(Event::Store) => by_store(alloc, protocol, state),
        Input::Core(Event::Evict) => by_evict(alloc, protocol, state),
        Input::Forward(forward) => {
            answer_choice(alloc, protocol, Desc::Stable(state), state, forward)
        }
        _ => Ok(None),
    }
}

/// What is done in a state that evicts.
pub fn when_leaving(alloc: Global, protocol: &Protocol, state: u8, input: Input) -> Chosen
    ensures { IfOk result (λ c. (mode : Mode) → c ≡ choice_of_mode mode (may.when_leaving protocol.now state input)) }
{
    match input {
        Input::PutAck => step(alloc, &[Act::Done], Desc::Stable(out_state(protocol))),
        Input::Forward(forward) => answer_choice(
            alloc,
            protocol,
            Desc::Leave(state),
            state,
            forward,
        ),
        _ => Ok(None),
    }
}
