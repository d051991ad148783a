//! Where an operation ends, and which tags it may have.
ghost use Rattle.std.specs.Prelude.{◌≡◌, map, is_some, false};
ghost use Rattle.std.specs.List.{list_any};
ghost use Rattle.std.specs.Option.{option_map_or};
ghost use Rattle.pg_terms.specs.Rows as says;
ghost use Rattle.pg_terms.specs.Terms as term;
ghost use Rattle.pg_table.specs.Descriptors as of;
ghost use Rattle.pg_infer.specs.Tags as tells;

use pg_perm::{CoreForm, Event, FwdClass, Mode, Pair};
use pg_shape::Protocol;
use pg_table::{Phase, Tag};
use pg_terms as terms;

fn pairs_in(form: &CoreForm) -> &[Pair]
    ensures { map (λ p. p.fin) result.now ≡ of.final_states_in form.now }
{
    match form {
        CoreForm::Ask { pairs, .. } => pairs.as_slice(),
        CoreForm::Hit(_) => &[],
        CoreForm::Leave { .. } => &[],
    }
}

/// The replies that a load or a store which began in this state may get, and where it ends with each.
pub fn pairs_of(protocol: &Protocol, start: u8, event: Event) -> &[Pair]
    ensures { map (λ p. p.fin) result.now ≡ of.final_states protocol.now start event }
{
    match terms::core_row(protocol.draft(), start, event) {
        Some(line) => pairs_in(&line.form),
        None => &[],
    }
}

pub fn out_state(protocol: &Protocol) -> u8
    ensures { result ≡ of.out_state protocol.now }
{
    protocol.out()
}

/// A cache in this state may get the share forward.
fn may_share(protocol: &Protocol, state: u8) -> bool
    ensures { result ≡ of.may_share protocol.now state }
{
    match protocol.forward_of(FwdClass::Share) {
        Some(forward) => protocol.due(state, forward),
        None => false,
    }
}

fn may_share_once_kept(protocol: &Protocol, state: u8) -> bool
    ensures { result ≡ option_map_or (of.may_share protocol.now) (term.keep_of protocol.now state) false }
{
    match terms::keep_of(protocol.draft(), state) {
        Some(kept) => may_share(protocol, kept),
        None => false,
    }
}

fn may_give(protocol: &Protocol, state: u8) -> bool
    ensures { result ≡ of.may_give protocol.now state }
{
    may_share(protocol, state) || (protocol.may_keep(state) && may_share_once_kept(protocol, state))
}

/// Where an operation ends with this final state, once the forwards that the tag tells of have come.
pub fn end_under_tag(protocol: &Protocol, fin: u8, tag: Tag) -> Option<u8>
    ensures { result ≡ of.end_under_tag protocol.now fin tag }
{
    match tag {
        Tag::Plain => Some(fin),
        Tag::Kept if protocol.may_keep(fin) => terms::keep_of(protocol.draft(), fin),
        Tag::Kept => None,
        Tag::Gave if may_give(protocol, fin) => protocol.shared(),
        Tag::Gave => None,
        Tag::Gone => Some(protocol.out()),
    }
}

fn may_end(protocol: &Protocol, fin: u8, tag: Tag) -> bool
    ensures { result ≡ is_some (of.end_under_tag protocol.now fin tag) }
{
    end_under_tag(protocol, fin, tag).is_some()
}

fn any_may_end(protocol: &Protocol, pairs: &[Pair], tag: Tag) -> bool
    ensures { result ≡ list_any (λ p. is_some (of.end_under_tag protocol.now p.fin tag)) pairs.now }
{
    pairs.iter().any(|pair| may_end(protocol, pair.fin, tag))
}

/// The tag tells of forwards that may come to an operation that began in this state.
fn is_tag_of(protocol: &Protocol, start: u8, event: Event, tag: Tag) -> bool
    ensures { result ≡ of.is_tag_of protocol.now start event tag }
{
    any_may_end(protocol, pairs_of(protocol, start, event), tag)
}

/// An operation that began in this state may have the tag; where forwards wait, no tag is set.
pub fn has_tag(protocol: &Protocol, mode: Mode, start: u8, event: Event, tag: Tag) -> bool
    ensures { result ≡ tells.has_tag protocol.now mode start event tag }
{
    match mode {
        Mode::Stall => tag == Tag::Plain,
        Mode::Defer => is_tag_of(protocol, start, event, tag),
    }
}

/// What a store that began in this state waits for at first.
pub fn store_phase(protocol: &Protocol, start: u8) -> Phase
    ensures { result ≡ of.store_phase protocol.now start }
{
    if terms::is_owner_state(protocol.draft(), start) {
        Phase::Ac
    } else {
        Phase::Ad
    }
}
