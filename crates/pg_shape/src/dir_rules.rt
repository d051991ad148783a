//! The rules that the line of a directory state breaks.
//!
//! S4: a second idle, or a list of states that its kind may not have.
//! S18: a due case of the state without a row line.
ghost use Rattle.std.specs.Prelude.{◌≡◌, ◌≤◌, length};
ghost use Rattle.std.specs.List.{list_any};
ghost use Rattle.pg_terms.specs.Terms as term;
ghost use Rattle.pg_shape.specs.DirRules as rule;
ghost use Rattle.pg_shape.specs.FirstFaults.{first_rule};

use pg_perm::{DirKind, DirLine, Draft, Rule};
use pg_terms::{
    DirCase, cases_at, dir_row, is_owner_state, is_write_owner_state, lists_state, request_of,
    shared,
};

fn has_idle(above: &[DirLine]) -> bool
    ensures { result ≡ list_any rule.is_idle above.now }
{
    above.iter().any(|line| line.kind == DirKind::Idle)
}

fn is_second_idle(above: &[DirLine], line: &DirLine) -> bool
    ensures { result ≡ rule.is_second_idle above.now line.now }
{
    line.kind == DirKind::Idle && has_idle(above)
}

fn has_no_owner(kind: DirKind) -> bool
    ensures { result ≡ rule.has_no_owner kind }
{
    kind == DirKind::Idle || kind == DirKind::Shared
}

fn lists_wrong_number(line: &DirLine) -> bool
    ensures { result ≡ rule.lists_wrong_number line.now }
{
    has_no_owner(line.kind) != line.beside.is_empty()
}

fn has_twice(states: &[u8]) -> bool
    ensures { result ≡ rule.has_twice states.now }
{
    let mut left = states;
    while let Some((state, rest)) = left.split_first() {
        if lists_state(rest, *state) {
            return true;
        }
        left = rest;
    }
    false
}

fn lists_another(draft: &Draft, line: &DirLine) -> bool
    ensures { result ≡ rule.lists_another draft.now line.now }
{
    line.beside
        .as_slice()
        .iter()
        .any(|state| !is_owner_state(draft, *state))
}

fn lists_writer(draft: &Draft, states: &[u8]) -> bool
    ensures { result ≡ list_any (term.cache_is term.is_write_owner draft.now) states.now }
{
    states
        .iter()
        .any(|state| is_write_owner_state(draft, *state))
}

fn mixes_a_writer(draft: &Draft, line: &DirLine) -> bool
    ensures { result ≡ rule.mixes_a_writer draft.now line.now }
{
    line.kind == DirKind::Mixed && lists_writer(draft, line.beside.as_slice())
}

fn lacks_shared(draft: &Draft, line: &DirLine) -> bool
    ensures { result ≡ rule.lacks_shared draft.now line.now }
{
    (line.kind == DirKind::Shared || line.kind == DirKind::Mixed) && shared(draft).is_none()
}

fn lists_wrongly(draft: &Draft, above: &[DirLine], line: &DirLine) -> bool
    ensures { result ≡ rule.lists_wrongly draft.now above.now line.now }
{
    is_second_idle(above, line)
        || lists_wrong_number(line)
        || has_twice(line.beside.as_slice())
        || lists_another(draft, line)
        || mixes_a_writer(draft, line)
        || lacks_shared(draft, line)
}

fn lacks_row(draft: &Draft, dir: u8, at: DirCase) -> bool
    ensures { result ≡ rule.lacks_row draft.now dir at }
{
    match at {
        DirCase::Ask(class, _) => {
            request_of(draft, class).is_some() && dir_row(draft, dir, at).is_none()
        }
        DirCase::Evict(..) => dir_row(draft, dir, at).is_none(),
    }
}

fn lacks_rows(draft: &Draft, dir: u8) -> bool
    ensures { result ≡ rule.lacks_rows draft.now dir }
{
    cases_at(draft, dir)
        .iter()
        .any(|at| lacks_row(draft, dir, *at))
}

/// The first rule that the line of a directory state breaks.
pub fn dir_rule(draft: &Draft, dir: u8, line: &DirLine) -> Option<Rule>
    requires { dir ≤ length draft.now.dirs }
    ensures { result ≡ first_rule (rule.dir_breaks draft.now dir line.now) }
{
    if lists_wrongly(draft, &draft.dirs.as_slice()[..usize::from(dir)], line) {
        return Some(Rule::S4);
    }
    if lacks_rows(draft, dir) {
        return Some(Rule::S18);
    }
    None
}
