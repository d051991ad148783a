//! The names of the states of the controllers.
ghost use Rattle.std.specs.Prelude.{◌≡◌, IfOk};
ghost use Rattle.std.specs.String.{string_bytes};
ghost use Rattle.pg_perm.specs.Words as word;
ghost use Rattle.pg_table.specs.Descriptors.{out_state, final_states, final_states_in};
ghost use Rattle.pg_print.specs.Names as name;

use pg_perm::{CoreForm, Draft, Event, cache_name, dir_name};
use pg_table::{Desc, DirDesc, Phase, Tag};
use pg_terms::{core_row, out};
use std::alloc::{AllocError, Global};

fn out_name(draft: &Draft) -> &str
    ensures { result.now ≡ word.cache_name draft.now (out_state draft.now) }
{
    cache_name(draft, out(draft).unwrap_or(0))
}

fn first_name<'a>(draft: &'a Draft, form: &CoreForm) -> &'a str
    ensures { result.now ≡ name.first_name draft.now (final_states_in form.now) }
{
    let CoreForm::Ask { pairs, .. } = form else {
        return "";
    };
    match pairs.as_slice().first() {
        Some(pair) => cache_name(draft, usize::from(pair.fin)),
        None => "",
    }
}

/// The name of the first final state of an operation that began in this state.
fn final_name(draft: &Draft, start: u8, event: Event) -> &str
    ensures { result.now ≡ name.first_name draft.now (final_states draft.now start event) }
{
    match core_row(draft, start, event) {
        Some(line) => first_name(draft, &line.form),
        None => "",
    }
}

fn is_single(word: &str) -> bool
    ensures { result ≡ name.is_single word.now }
{
    word.len() == 1
}

/// Two names as one, which still tells where the first ends.
fn join_names(alloc: Global, first: &str, last: &str) -> Result<String, AllocError>
    ensures { IfOk result (λ text. string_bytes text ≡ name.join_names first.now last.now) }
{
    let mut text = String::from_str(alloc, first)?;
    if !(is_single(first) && is_single(last)) {
        text.push_str(".")?;
    }
    text.push_str(last)?;
    Ok(text)
}

fn phase_word(phase: Phase) -> &'static str
    ensures { result.now ≡ name.phase_word phase }
{
    match phase {
        Phase::D => "_D",
        Phase::Ad => "_AD",
        Phase::Ac => "_AC",
        Phase::A => "_A",
    }
}

fn tag_word(tag: Tag) -> &'static str
    ensures { result.now ≡ name.tag_word tag }
{
    match tag {
        Tag::Plain => "",
        Tag::Kept => "_kept",
        Tag::Gave => "_gave",
        Tag::Gone => "_gone",
    }
}

fn stable_name(alloc: Global, draft: &Draft, state: u8) -> Result<String, AllocError>
    ensures { IfOk result (λ text. string_bytes text ≡ name.state_name draft.now (Desc.Stable state)) }
{
    String::from_str(alloc, cache_name(draft, usize::from(state)))
}

fn asked_name(
    alloc: Global,
    draft: &Draft,
    event: Event,
    start: u8,
    phase: Phase,
    tag: Tag,
) -> Result<String, AllocError>
    ensures { IfOk result (λ text. string_bytes text ≡ name.state_name draft.now (Desc.Ask event start phase tag)) }
{
    let mut text = join_names(
        alloc,
        cache_name(draft, usize::from(start)),
        final_name(draft, start, event),
    )?;
    text.push_str(phase_word(phase))?;
    text.push_str(tag_word(tag))?;
    Ok(text)
}

fn leaving_name(alloc: Global, draft: &Draft, state: u8) -> Result<String, AllocError>
    ensures { IfOk result (λ text. string_bytes text ≡ name.state_name draft.now (Desc.Leave state)) }
{
    let mut text = join_names(
        alloc,
        cache_name(draft, usize::from(state)),
        out_name(draft),
    )?;
    text.push_str("_A")?;
    Ok(text)
}

/// The name of a state of a cache controller.
pub fn state_name(alloc: Global, draft: &Draft, desc: Desc) -> Result<String, AllocError>
    ensures { IfOk result (λ text. string_bytes text ≡ name.state_name draft.now desc) }
{
    match desc {
        Desc::Stable(state) => stable_name(alloc, draft, state),
        Desc::Ask {
            event,
            start,
            phase,
            tag,
        } => asked_name(alloc, draft, event, start, phase, tag),
        Desc::Leave(state) => leaving_name(alloc, draft, state),
    }
}

fn busy_name(alloc: Global, draft: &Draft, state: u8) -> Result<String, AllocError>
    ensures { IfOk result (λ text. string_bytes text ≡ name.dir_state_name draft.now (DirDesc.Busy state)) }
{
    let mut text = String::from_str(alloc, dir_name(draft, usize::from(state)))?;
    text.push_str("_D")?;
    Ok(text)
}

/// The name of a state of the directory controller.
pub fn dir_state_name(alloc: Global, draft: &Draft, desc: DirDesc) -> Result<String, AllocError>
    ensures { IfOk result (λ text. string_bytes text ≡ name.dir_state_name draft.now desc) }
{
    match desc {
        DirDesc::State(state) => { String::from_str(alloc, dir_name(draft, usize::from(state))) }
        DirDesc::Busy(state) => busy_name(alloc, draft, state),
    }
}
