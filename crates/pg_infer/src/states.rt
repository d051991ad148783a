//! The states of a cache controller, in their order.
ghost use Rattle.std.specs.Prelude.{◌≡◌, ◌++◌, ◌∷◌, [], map, length, not, if◌then◌else◌, IfOk};
ghost use Rattle.std.specs.List.{filter, flat_map, range_with_len};
ghost use Rattle.std.specs.Option.{option_map_or};
ghost use Rattle.pg_terms.specs.Terms as term;
ghost use Rattle.pg_table.specs.declared.cache.Desc.TheVariants as desc;
ghost use Rattle.pg_table.specs.Descriptors as of;
ghost use Rattle.pg_infer.specs.Tags as tells;

use crate::tag_ends::{has_tag, out_state, store_phase};
use pg_perm::{Event, Mode};
use pg_shape::Protocol;
use pg_table::{Desc, Phase, Tag};
use pg_terms as terms;
use std::alloc::{AllocError, Global};

/// Every tag, in the order in which states have them.
const TAGS: &[Tag] = &[Tag::Plain, Tag::Kept, Tag::Gave, Tag::Gone];

/// How many cache states the protocol has.
fn count(protocol: &Protocol) -> u8
    ensures { result ≡ length protocol.now.caches }
{
    protocol.draft().caches.len() as u8
}

fn put(states: &mut Vec<Desc>, state: Desc) -> Result<(), AllocError>
    ensures { IfOk result (λ _. states.new.items ≡ states.old.items ++ state ∷ []) }
{
    states.push(state)?;
    Ok(())
}

fn put_if(states: &mut Vec<Desc>, is_there: bool, state: Desc) -> Result<(), AllocError>
    ensures { IfOk result (λ _. states.new.items ≡ states.old.items ++ (if is_there then state ∷ [] else [])) }
{
    if is_there {
        states.push(state)?;
    }
    Ok(())
}

fn put_stable(states: &mut Vec<Desc>, count: u8) -> Result<(), AllocError>
    ensures { IfOk result (λ _. states.new.items ≡ states.old.items ++ map (λ s. desc.Stable s) (range_with_len 0 count)) }
{
    for state in 0..count {
        put(states, Desc::Stable(state))?;
    }
    Ok(())
}

/// Those of these tags that an operation has which began in the state.
fn put_tags(
    states: &mut Vec<Desc>,
    protocol: &Protocol,
    mode: Mode,
    start: u8,
    event: Event,
    phase: Phase,
    tags: &[Tag],
) -> Result<(), AllocError>
    ensures { IfOk result (λ _. states.new.items ≡ states.old.items ++ map (λ t. desc.Ask event start phase t) (filter (tells.has_tag protocol.now mode start event) tags.now)) }
{
    for tag in tags {
        let state = Desc::Ask {
            event,
            start,
            phase,
            tag: *tag,
        };
        put_if(states, has_tag(protocol, mode, start, event, *tag), state)?;
    }
    Ok(())
}

fn put_asked(
    states: &mut Vec<Desc>,
    protocol: &Protocol,
    mode: Mode,
    start: u8,
    event: Event,
    phase: Phase,
) -> Result<(), AllocError>
    ensures { IfOk result (λ _. states.new.items ≡ states.old.items ++ map (λ t. desc.Ask event start phase t) (of.tags protocol.now mode start event)) }
{
    put_tags(states, protocol, mode, start, event, phase, TAGS)
}

/// A store that began in the state, in its first phase.
fn put_first(
    states: &mut Vec<Desc>,
    protocol: &Protocol,
    mode: Mode,
    start: u8,
) -> Result<(), AllocError>
    ensures { IfOk result (λ _. states.new.items ≡ states.old.items ++ of.first_states protocol.now mode start) }
{
    match store_phase(protocol, start) {
        Phase::Ac => {
            let state = Desc::Ask {
                event: Event::Store,
                start,
                phase: Phase::Ac,
                tag: Tag::Plain,
            };
            put(states, state)
        }
        _ => put_asked(states, protocol, mode, start, Event::Store, Phase::Ad),
    }
}

/// A store that began in the state, and waits for acknowledgements alone.
fn put_waiting(
    states: &mut Vec<Desc>,
    protocol: &Protocol,
    mode: Mode,
    start: u8,
) -> Result<(), AllocError>
    ensures { IfOk result (λ _. states.new.items ≡ states.old.items ++ of.waiting_states protocol.now mode start) }
{
    match protocol.shared() {
        Some(_) => put_asked(states, protocol, mode, start, Event::Store, Phase::A),
        None => Ok(()),
    }
}

fn put_store(
    states: &mut Vec<Desc>,
    protocol: &Protocol,
    mode: Mode,
    start: u8,
) -> Result<(), AllocError>
    ensures { IfOk result (λ _. states.new.items ≡ states.old.items ++ of.store_states protocol.now mode start) }
{
    put_first(states, protocol, mode, start)?;
    put_waiting(states, protocol, mode, start)
}

fn put_reader(
    states: &mut Vec<Desc>,
    protocol: &Protocol,
    mode: Mode,
    state: u8,
) -> Result<(), AllocError>
    ensures { IfOk result (λ _. states.new.items ≡ states.old.items ++ (if term.cache_is term.is_read_owner protocol.now state then of.store_states protocol.now mode state else [])) }
{
    if terms::is_read_owner_state(protocol.draft(), state) {
        put_store(states, protocol, mode, state)?;
    }
    Ok(())
}

/// The stores of owners that may only read.
fn put_readers(
    states: &mut Vec<Desc>,
    protocol: &Protocol,
    mode: Mode,
    count: u8,
) -> Result<(), AllocError>
    ensures { IfOk result (λ _. states.new.items ≡ states.old.items ++ flat_map (of.store_states protocol.now mode) (filter (term.cache_is term.is_read_owner protocol.now) (range_with_len 0 count))) }
{
    for state in 0..count {
        put_reader(states, protocol, mode, state)?;
    }
    Ok(())
}

fn put_shared(states: &mut Vec<Desc>, protocol: &Protocol, mode: Mode) -> Result<(), AllocError>
    ensures { IfOk result (λ _. states.new.items ≡ states.old.items ++ flat_map (of.store_states protocol.now mode) (option_map_or (λ s. s ∷ []) (term.shared protocol.now) [])) }
{
    match protocol.shared() {
        Some(shared) => put_store(states, protocol, mode, shared),
        None => Ok(()),
    }
}

fn put_stores(states: &mut Vec<Desc>, protocol: &Protocol, mode: Mode) -> Result<(), AllocError>
    ensures { IfOk result (λ _. states.new.items ≡ states.old.items ++ flat_map (of.store_states protocol.now mode) (of.store_starts protocol.now)) }
{
    put_store(states, protocol, mode, out_state(protocol))?;
    put_shared(states, protocol, mode)?;
    put_readers(states, protocol, mode, count(protocol))
}

/// The evicts of these states, but for the out state.
fn put_leaving(states: &mut Vec<Desc>, protocol: &Protocol, count: u8) -> Result<(), AllocError>
    ensures { IfOk result (λ _. states.new.items ≡ states.old.items ++ map (λ s. desc.Leave s) (filter (λ s. not (term.is (term.out protocol.now) s)) (range_with_len 0 count))) }
{
    for state in 0..count {
        put_if(states, protocol.out() != state, Desc::Leave(state))?;
    }
    Ok(())
}

/// The load, which begins as out.
fn put_load(states: &mut Vec<Desc>, protocol: &Protocol, mode: Mode) -> Result<(), AllocError>
    ensures { IfOk result (λ _. states.new.items ≡ states.old.items ++ map (λ t. desc.Ask Event.Load (of.out_state protocol.now) Phase.D t) (of.tags protocol.now mode (of.out_state protocol.now) Event.Load)) }
{
    let out = out_state(protocol);
    put_asked(states, protocol, mode, out, Event::Load, Phase::D)
}

/// The states of a cache controller.
pub fn descs(alloc: Global, protocol: &Protocol, mode: Mode) -> Result<Vec<Desc>, AllocError>
    ensures { IfOk result (λ all. all.items ≡ of.descs protocol.now mode) }
{
    let mut states = Vec::new(alloc);
    put_stable(&mut states, count(protocol))?;
    put_load(&mut states, protocol, mode)?;
    put_stores(&mut states, protocol, mode)?;
    put_leaving(&mut states, protocol, count(protocol))?;
    put(&mut states, Desc::Leave(out_state(protocol)))?;
    Ok(states)
}
