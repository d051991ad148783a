//! The terms of a protocol's draft: the out state and the shared state, READ and WRITE, what a directory state lists, the row of a case, and
//! what is due: the forwards that may come to a cache state, the cases that may come to a directory state, and the replies that may come of
//! a request; and what the line of a row says.
//!
//! States and messages are numbers, as in a draft. The first of a role or a class is found by its place,
//! which is its number. docs/TEXT.md has the terms in words.
#![tactic(auto)]

mod cases;
mod due;
mod rows;
mod terms;

pub use cases::DirCase;
pub use due::{
    cases_at, forward_in, is_due, is_due_case, is_form_due, is_load_reply, is_reply,
    is_store_reply, is_to_owner, kind_is,
};
pub use rows::{
    action_in, allows, final_state, final_under, is_allowed, is_by_share, reply_to, store_next,
};
pub use terms::{
    core_row, dir_row, forward_of, has_class, is, is_case, is_clean_state, is_forward_of, is_other,
    is_out, is_owner, is_owner_state, is_read_owner, is_read_owner_state, is_request_of, is_shared,
    is_write_owner, is_write_owner_state, keep_of, listed_states, lists, lists_state, out, perm_of,
    request_of, shared, take_row,
};
