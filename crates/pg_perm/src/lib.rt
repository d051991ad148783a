//! The types that the layers share: names, rules and faults, the draft of a protocol as its text states it, and the steps of a history.
//!
//! All of it is plain data, which contracts see as its fields; a list of a draft is seen as a list and a name as its bytes.
//! docs/TEXT.md has the form of the text that a draft comes from.
#![tactic(auto)]

mod draft;
mod fault;
mod kinds;
mod laws;
mod names;
mod sequence;
mod step;
mod vocabulary;
mod word;
mod words;

pub use draft::{
    Action, CacheLine, Caches, CoreForm, CoreLine, Cores, DirLine, Dirs, Draft, Messages, MsgClass,
    MsgLine, Pair, Pairs, ReplyName, RowForm, RowLine, Rows, States, TakeLine, Takes,
};
pub use fault::{Fault, Rule};
pub use kinds::{
    Access, DirKind, Event, FwdClass, Left, Mode, Op, Perm, ReqClass, Role, Side, Who,
};
pub use laws::{
    faults_are_ordered, names_are_short, rules_are_ranked, worked_lists, worked_names, worked_words,
};
pub use names::{cache_name, dir_name, message_name};
pub use sequence::Sequence;
pub use step::{Step, Steps};
pub use vocabulary::{Vocabulary, find_among, find_word};
pub use word::{Word, is_name, is_state_name};

#[cfg(test)]
mod tests;
