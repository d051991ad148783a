//! The rules that the protocol line breaks: what the whole text lacks.
//!
//! S2: no out state, or no write owner.
//! S4: no idle directory state, or a shared cache state and no directory state of kind shared.
//! S5: no READ, or no WRITE.
//! S6: a shared state without inv.
ghost use Rattle.std.specs.Prelude.{◌≡◌};
ghost use Rattle.std.specs.List.{list_any};
ghost use Rattle.pg_terms.specs.Terms as term;
ghost use Rattle.pg_shape.specs.TextRules as text;
ghost use Rattle.pg_shape.specs.FirstFaults.{first_rule};

use pg_perm::{DirKind, Draft, FwdClass, ReqClass, Rule};
use pg_terms::{forward_of, is_write_owner, out, request_of, shared};

fn has_write_owner(draft: &Draft) -> bool
    ensures { result ≡ list_any term.is_write_owner draft.now.caches }
{
    draft
        .caches
        .as_slice()
        .iter()
        .any(|line| is_write_owner(line))
}

fn lacks_states(draft: &Draft) -> bool
    ensures { result ≡ text.lacks_states draft.now }
{
    out(draft).is_none() || !has_write_owner(draft)
}

fn has_kind(kind: DirKind, draft: &Draft) -> bool
    ensures { result ≡ text.has_kind kind draft.now }
{
    draft.dirs.as_slice().iter().any(|line| line.kind == kind)
}

fn lacks_dirs(draft: &Draft) -> bool
    ensures { result ≡ text.lacks_dirs draft.now }
{
    !has_kind(DirKind::Idle, draft)
        || (shared(draft).is_some() && !has_kind(DirKind::Shared, draft))
}

fn lacks_requests(draft: &Draft) -> bool
    ensures { result ≡ text.lacks_requests draft.now }
{
    request_of(draft, ReqClass::Read).is_none() || request_of(draft, ReqClass::Write).is_none()
}

fn lacks_inv(draft: &Draft) -> bool
    ensures { result ≡ text.lacks_inv draft.now }
{
    shared(draft).is_some() && forward_of(draft, FwdClass::Inv).is_none()
}

/// The first rule that the protocol line breaks.
pub fn text_rule(draft: &Draft) -> Option<Rule>
    ensures { result ≡ first_rule (text.text_breaks draft.now) }
{
    if lacks_states(draft) {
        return Some(Rule::S2);
    }
    if lacks_dirs(draft) {
        return Some(Rule::S4);
    }
    if lacks_requests(draft) {
        return Some(Rule::S5);
    }
    if lacks_inv(draft) {
        return Some(Rule::S6);
    }
    None
}
