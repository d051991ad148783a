//! The rules that the line of a request or a forward breaks.
//!
//! S5: a second read, a second write.
//! S6: a second forward of one class, an invalidation without a shared state.
ghost use Rattle.std.specs.Prelude.{◌≡◌, ◌≤◌, length};
ghost use Rattle.std.specs.List.{list_any};
ghost use Rattle.pg_terms.specs.Terms as term;
ghost use Rattle.pg_shape.specs.MessageRules as rule;
ghost use Rattle.pg_shape.specs.FirstFaults.{first_rule};

use pg_perm::{Draft, FwdClass, MsgClass, MsgLine, ReqClass, Rule};
use pg_terms::{is_forward_of, is_request_of, shared};

fn has_request(class: ReqClass, above: &[MsgLine]) -> bool
    ensures { result ≡ rule.has_request class above.now }
{
    above.iter().any(|line| is_request_of(class, line.class))
}

fn has_forward_of(class: FwdClass, above: &[MsgLine]) -> bool
    ensures { result ≡ list_any (λ m. term.is_forward_of class m.class) above.now }
{
    above.iter().any(|line| is_forward_of(class, line.class))
}

fn has_forward(above: &[MsgLine], class: MsgClass) -> bool
    ensures { result ≡ rule.has_forward above.now class }
{
    match class {
        MsgClass::Forward(class) => has_forward_of(class, above),
        _ => false,
    }
}

fn is_second_request(above: &[MsgLine], line: &MsgLine) -> bool
    ensures { result ≡ rule.is_second_request above.now line.now }
{
    (is_request_of(ReqClass::Read, line.class) && has_request(ReqClass::Read, above))
        || (is_request_of(ReqClass::Write, line.class) && has_request(ReqClass::Write, above))
}

fn is_inv_to_none(draft: &Draft, line: &MsgLine) -> bool
    ensures { result ≡ rule.is_inv_to_none draft.now line.now }
{
    is_forward_of(FwdClass::Inv, line.class) && shared(draft).is_none()
}

/// The first rule that the line of a message breaks.
pub fn message_rule(draft: &Draft, message: usize, line: &MsgLine) -> Option<Rule>
    requires { message ≤ length draft.now.messages }
    ensures { result ≡ first_rule (rule.message_breaks draft.now message line.now) }
{
    let above = &draft.messages.as_slice()[..message];
    if is_second_request(above, line) {
        return Some(Rule::S5);
    }
    if has_forward(above, line.class) || is_inv_to_none(draft, line) {
        return Some(Rule::S6);
    }
    None
}
