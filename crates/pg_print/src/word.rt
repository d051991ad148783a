//! The words for inputs and acts.
ghost use Rattle.std.specs.Prelude.{◌≡◌, ◌++◌, map, codes, IfOk};
ghost use Rattle.std.specs.String.{string_bytes};
ghost use Rattle.pg_perm.specs.Words as perm;
ghost use Rattle.pg_print.specs.Words as word;

use pg_perm::{Draft, Left, ReqClass, Vocabulary, Who, message_name};
use pg_table::{Act, DirAct, DirInput, Input};
use pg_terms::request_of;
use std::alloc::{AllocError, Global};

/// The name of a message, and what stands after it.
fn message_with(alloc: Global, draft: &Draft, message: u8, end: &str) -> Result<String, AllocError>
    ensures { IfOk result (λ text. string_bytes text ≡ perm.message_name draft.now message ++ end.now) }
{
    let mut text = String::from_str(alloc, message_name(draft, usize::from(message)))?;
    text.push_str(end)?;
    Ok(text)
}

pub fn input_word(alloc: Global, draft: &Draft, input: Input) -> Result<String, AllocError>
    ensures { IfOk result (λ text. string_bytes text ≡ word.input_word draft.now input) }
{
    match input {
        Input::Core(event) => String::from_str(alloc, event.word()),
        Input::Forward(message) => {
            String::from_str(alloc, message_name(draft, usize::from(message)))
        }
        Input::CountAll => String::from_str(alloc, "AckCount.all"),
        Input::CountPart => String::from_str(alloc, "AckCount.part"),
        Input::PutAck => String::from_str(alloc, "PutAck"),
        Input::DataAll(message) => message_with(alloc, draft, message, ".all"),
        Input::DataPart(message) => message_with(alloc, draft, message, ".part"),
        Input::AckMore => String::from_str(alloc, "InvAck.more"),
        Input::AckLast => String::from_str(alloc, "InvAck.last"),
    }
}

/// Puts the words of an act last.
pub fn put_act<'a>(words: &mut Vec<&'a str>, draft: &'a Draft, act: Act) -> Result<(), AllocError>
    ensures { IfOk result (λ _. map (λ w. w.now) words.new.items ≡ map (λ w. w.now) words.old.items ++ word.act_words draft.now act) }
{
    match act {
        Act::Hit => words.push("hit")?,
        Act::Skip => words.push("skip")?,
        Act::Send(message) => {
            words.push("send")?;
            words.push(message_name(draft, usize::from(message)))?;
        }
        Act::Ack => words.push("ack")?,
        Act::Give(message) => {
            words.push("give")?;
            words.push(message_name(draft, usize::from(message)))?;
        }
        Act::Wb => words.push("wb")?,
        Act::Fill => words.push("fill")?,
        Act::Need => words.push("need")?,
        Act::Count => words.push("count")?,
        Act::Done => words.push("done")?,
        Act::Defer => words.push("defer")?,
        Act::Serve => words.push("serve")?,
        Act::Stall => words.push("stall")?,
    }
    Ok(())
}

/// The name of the first request of a class.
fn request_name(draft: &Draft, class: ReqClass) -> &str
    ensures { result.now ≡ word.request_name draft.now class }
{
    match request_of(draft, class) {
        Some(message) => message_name(draft, message),
        None => "",
    }
}

/// Two words with a dot between them.
fn with_dot(alloc: Global, first: &str, last: &str) -> Result<String, AllocError>
    ensures { IfOk result (λ text. string_bytes text ≡ first.now ++ codes "." ++ last.now) }
{
    let mut text = String::from_str(alloc, first)?;
    text.push_str(".")?;
    text.push_str(last)?;
    Ok(text)
}

fn evict_word(alloc: Global, who: Who, left: Left) -> Result<String, AllocError>
    ensures { IfOk result (λ text. string_bytes text ≡ codes "evict." ++ perm.who_word who ++ codes "." ++ perm.left_word left) }
{
    let mut text = String::from_str(alloc, "evict.")?;
    text.push_str(who.word())?;
    text.push_str(".")?;
    text.push_str(left.word())?;
    Ok(text)
}

pub fn dir_input_word(alloc: Global, draft: &Draft, input: DirInput) -> Result<String, AllocError>
    ensures { IfOk result (λ text. string_bytes text ≡ word.dir_input_word draft.now input) }
{
    match input {
        DirInput::Ask(class, who) => with_dot(alloc, request_name(draft, class), who.word()),
        DirInput::Evict(who, left) => evict_word(alloc, who, left),
        DirInput::EvictNone => String::from_str(alloc, "evict.none"),
        DirInput::BusyAsk(class) => String::from_str(alloc, request_name(draft, class)),
        DirInput::BusyEvict => String::from_str(alloc, "evict"),
        DirInput::Wb => String::from_str(alloc, "WbData"),
    }
}

/// Puts the words of an act of the directory last.
pub fn put_dir_act<'a>(
    words: &mut Vec<&'a str>,
    draft: &'a Draft,
    act: DirAct,
) -> Result<(), AllocError>
    ensures { IfOk result (λ _. map (λ w. w.now) words.new.items ≡ map (λ w. w.now) words.old.items ++ word.dir_act_words draft.now act) }
{
    match act {
        DirAct::Reply(message) => {
            words.push("reply")?;
            words.push(message_name(draft, usize::from(message)))?;
        }
        DirAct::Forward(message) => {
            words.push("forward")?;
            words.push(message_name(draft, usize::from(message)))?;
        }
        DirAct::Inv => words.push("inv")?,
        DirAct::AckCount => words.push("ackcount")?,
        DirAct::Write => words.push("write")?,
        DirAct::PutAck => words.push("putack")?,
        DirAct::Stall => words.push("stall")?,
    }
    Ok(())
}
