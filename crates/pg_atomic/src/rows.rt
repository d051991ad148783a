ghost use Rattle.std.specs.Prelude.{◌≡◌, Some, position, IsSome};
ghost use Rattle.std.specs.Option.{option_and_then};
ghost use Rattle.pg_perm.specs.declared.kinds.DirKind.TheVariants as kind;
ghost use Rattle.pg_perm.specs.declared.kinds.Event.TheVariants as event;
ghost use Rattle.pg_perm.specs.declared.kinds.FwdClass.TheVariants.{Inv};
ghost use Rattle.pg_perm.specs.Drafts.{IsWellFormed};
ghost use Rattle.pg_terms.specs.Terms as term;
ghost use Rattle.pg_terms.specs.Due as due;
ghost use Rattle.pg_terms.specs.Rows as says;
ghost use Rattle.pg_shape.specs.Shaped as shaped;
ghost use Rattle.pg_directory.specs.DirEntries as dir_entries;
ghost use Rattle.pg_atomic.specs.States as states;
ghost use Rattle.pg_atomic.specs.Steps as steps;

use pg_perm::{DirKind, Draft, Event, FwdClass};
use pg_terms as terms;

/// Whether a core in this state has the permission for a load or a store, or has something to evict.
pub fn may(draft: &Draft, state: u8, event: Event) -> bool
    ensures { result ≡ steps.may draft.now state event }
{
    match event {
        Event::Load | Event::Store => terms::is_allowed(draft, event, state),
        Event::Evict => !terms::is(terms::out(draft), state),
    }
}

/// The out state.
pub fn out(draft: &Draft) -> u8
    requires well_formed { IsWellFormed draft.now }
    requires shaped { shaped.IsShaped draft.now }
    ensures { term.out draft.now ≡ Some result }
{
    terms::out(draft).unwrap() as u8
}

/// The inv, of which there is one at most.
pub fn inv(draft: &Draft) -> Option<u8>
    requires { IsWellFormed draft.now }
    ensures { result ≡ term.forward_of draft.now Inv }
{
    let inv = terms::forward_of(draft, FwdClass::Inv)?;
    Some(inv as u8)
}

fn idle_state(draft: &Draft) -> Option<usize>
    ensures { result ≡ position (λ l. due.same_kind kind.Idle l.kind) draft.now.dirs }
{
    draft
        .dirs
        .as_slice()
        .iter()
        .position(|line| line.kind == DirKind::Idle)
}

/// The idle directory state.
pub fn idle(draft: &Draft) -> u8
    requires well_formed { IsWellFormed draft.now }
    requires shaped { shaped.IsShaped draft.now }
    ensures { result ≡ (dir_entries.initial_entry draft.now).dir }
{
    idle_state(draft).unwrap() as u8
}

/// Where a forward leads a core in this state, which has a row for it.
pub fn take_next(draft: &Draft, state: u8, forward: u8) -> u8
    requires { IsSome (term.take_row draft.now state forward) }
    ensures { result ≡ states.take_next draft.now state forward }
{
    terms::take_row(draft, state, forward).unwrap().next
}

fn hit_in(draft: &Draft, state: u8) -> Option<u8>
    ensures { result ≡ option_and_then (λ l. says.store_next state event.Store l.form) (term.core_row draft.now state event.Store) }
{
    let row = terms::core_row(draft, state, Event::Store)?;
    terms::store_next(state, Event::Store, &row.form)
}

/// Where a store that hits leads a core in this state.
pub fn hit_next(draft: &Draft, state: u8) -> u8
    ensures { result ≡ states.hit_next draft.now state }
{
    hit_in(draft, state).unwrap_or(state)
}
