//! The rules that the line of a cache state breaks.
//!
//! S1: out without `none`, shared without `read`, an owner with `none`.
//! S2: a second out, a second shared, a 13th owner.
//! S3: `clean` on a state that is no owner.
//! S4: an owner that no dir line lists.
//! S8: no core line for load, for store, or, at a state that isn't out, for evict.
//! S13: a due pair of the state without a take line.
ghost use Rattle.std.specs.Prelude.{◌≡◌, ◌≤◌, length};
ghost use Rattle.pg_shape.specs.CacheRules as cache;
ghost use Rattle.pg_shape.specs.FirstFaults.{first_rule};

use pg_perm::{CacheLine, Draft, Event, Perm, Rule};
use pg_terms::{core_row, is, is_due, is_out, is_owner, is_shared, lists_state, out, take_row};

/// The most cache states in which a cache is the owner.
const OWNER_LIMIT: usize = 12;

fn has_wrong_perm(line: &CacheLine) -> bool
    ensures { result ≡ cache.has_wrong_perm line.now }
{
    (is_out(line.role) && line.perm != Perm::None)
        || (is_shared(line.role) && line.perm != Perm::Read)
        || (is_owner(line.role) && line.perm == Perm::None)
}

fn has_out(above: &[CacheLine]) -> bool
    ensures { result ≡ cache.has_out above.now }
{
    above.iter().any(|line| is_out(line.role))
}

fn has_shared(above: &[CacheLine]) -> bool
    ensures { result ≡ cache.has_shared above.now }
{
    above.iter().any(|line| is_shared(line.role))
}

fn owner_count(above: &[CacheLine]) -> usize
    ensures { result ≡ cache.owner_count above.now }
{
    above.iter().filter(|line| is_owner(line.role)).count()
}

fn is_one_too_many(above: &[CacheLine], line: &CacheLine) -> bool
    ensures { result ≡ cache.is_one_too_many above.now line.now }
{
    (is_out(line.role) && has_out(above))
        || (is_shared(line.role) && has_shared(above))
        || (is_owner(line.role) && owner_count(above) >= OWNER_LIMIT)
}

fn is_needlessly_clean(line: &CacheLine) -> bool
    ensures { result ≡ cache.is_needlessly_clean line.now }
{
    line.clean && !is_owner(line.role)
}

fn is_listed(draft: &Draft, state: u8) -> bool
    ensures { result ≡ cache.is_listed draft.now state }
{
    draft
        .dirs
        .as_slice()
        .iter()
        .any(|line| lists_state(line.beside.as_slice(), state))
}

fn is_unlisted(draft: &Draft, state: u8, line: &CacheLine) -> bool
    ensures { result ≡ cache.is_unlisted draft.now state line.now }
{
    is_owner(line.role) && !is_listed(draft, state)
}

fn lacks_core_lines(draft: &Draft, state: u8) -> bool
    ensures { result ≡ cache.lacks_core_lines draft.now state }
{
    core_row(draft, state, Event::Load).is_none()
        || core_row(draft, state, Event::Store).is_none()
        || (!is(out(draft), state) && core_row(draft, state, Event::Evict).is_none())
}

fn lacks_take_line(draft: &Draft, state: u8, forward: u8) -> bool
    ensures { result ≡ cache.lacks_take_line draft.now state forward }
{
    is_due(draft, state, forward) && take_row(draft, state, forward).is_none()
}

fn lacks_take_lines_below(draft: &Draft, state: u8, below: u8) -> bool
    ensures { result ≡ cache.lacks_take_lines_below draft.now state below }
{
    let mut left = below;
    while left > 0 {
        left -= 1;
        if lacks_take_line(draft, state, left) {
            return true;
        }
    }
    false
}

fn lacks_take_lines(draft: &Draft, state: u8) -> bool
    requires { length draft.now.messages ≤ 32 }
    ensures { result ≡ cache.lacks_take_lines draft.now state }
{
    lacks_take_lines_below(draft, state, draft.messages.len() as u8)
}

/// The first rule that the line of a cache state breaks.
pub fn cache_rule(draft: &Draft, state: u8, line: &CacheLine) -> Option<Rule>
    requires below { state ≤ length draft.now.caches }
    requires messages { length draft.now.messages ≤ 32 }
    ensures { result ≡ first_rule (cache.cache_breaks draft.now state line.now) }
{
    if has_wrong_perm(line) {
        return Some(Rule::S1);
    }
    if is_one_too_many(&draft.caches.as_slice()[..usize::from(state)], line) {
        return Some(Rule::S2);
    }
    if is_needlessly_clean(line) {
        return Some(Rule::S3);
    }
    if is_unlisted(draft, state, line) {
        return Some(Rule::S4);
    }
    if lacks_core_lines(draft, state) {
        return Some(Rule::S8);
    }
    if lacks_take_lines(draft, state) {
        return Some(Rule::S13);
    }
    None
}
