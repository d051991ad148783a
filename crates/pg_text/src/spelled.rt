ghost use Rattle.std.specs.Prelude.{◌≡◌, map, IfOk, [], ◌∷◌, ◌++◌};
ghost use Rattle.pg_perm.specs.declared.draft.Draft.{Draft};
ghost use Rattle.pg_perm.specs.Words as word;
ghost use Rattle.pg_forms.specs.declared.line.Line.{Line};
ghost use Rattle.pg_forms.specs.Forms.{spelling, shape_words};
ghost use Rattle.pg_forms.specs.Pairs.{words_in};
ghost use Rattle.pg_text.specs.Printing as text;

use pg_perm::{
    Action, CacheLine, CoreForm, CoreLine, DirLine, Draft, MsgClass, MsgLine, Pair, ReplyName,
    RowForm, RowLine, TakeLine, Vocabulary, cache_name, dir_name, message_name,
};
use std::alloc::AllocError;

fn reply_word(draft: &Draft, reply: ReplyName) -> &str
    ensures { result.now ≡ text.reply_word draft.now reply }
{
    match reply {
        ReplyName::AckCount => "AckCount",
        ReplyName::Reply(number) => message_name(draft, usize::from(number)),
    }
}

fn action_word(draft: &Draft, action: Action) -> &str
    ensures { result.now ≡ text.action_word draft.now action }
{
    match action {
        Action::Reply(number) => message_name(draft, usize::from(number)),
        Action::Forward(number) => message_name(draft, usize::from(number)),
        Action::Count => "count",
    }
}

/// A line of a draft, as the words that it is written with.
pub trait Spelled {
    /// The line in the names of its draft.
    ghost line: { Draft → Self → Line };

    /// Puts the words of the line last.
    fn put_words<'a>(&'a self, draft: &'a Draft, words: &mut Vec<&'a str>) -> Result<(), AllocError>
        ensures { IfOk result (λ _. map (λ w. w.now) words.new.items ≡ map (λ w. w.now) words.old.items ++ spelling (line draft.now self.now)) };
}

impl Spelled for CacheLine {
    ghost line = { λ _ c. text.cache_line_of c };

    fn put_words<'a>(
        &'a self,
        _draft: &'a Draft,
        words: &mut Vec<&'a str>,
    ) -> Result<(), AllocError> {
        words.push("cache")?;
        words.push(self.name.as_str())?;
        words.push(self.role.word())?;
        words.push(self.perm.word())?;
        if self.clean {
            words.push("clean")?;
        }
        Ok(())
    }
}

/// Puts the names of cache states last.
fn put_states<'a>(
    words: &mut Vec<&'a str>,
    draft: &'a Draft,
    states: &[u8],
) -> Result<(), AllocError>
    ensures { IfOk result (λ _. map (λ w. w.now) words.new.items
        ≡ map (λ w. w.now) words.old.items ++ map (word.cache_name draft.now) states.now) }
{
    for state in states {
        words.push(cache_name(draft, usize::from(*state)))?;
    }
    Ok(())
}

impl Spelled for DirLine {
    ghost line = { text.dir_line_of };

    fn put_words<'a>(
        &'a self,
        draft: &'a Draft,
        words: &mut Vec<&'a str>,
    ) -> Result<(), AllocError> {
        words.push("dir")?;
        words.push(self.name.as_str())?;
        words.push(self.kind.word())?;
        put_states(words, draft, self.beside.as_slice())
    }
}

impl Spelled for MsgLine {
    ghost line = { λ _ m. text.message_line_of m };

    fn put_words<'a>(
        &'a self,
        _draft: &'a Draft,
        words: &mut Vec<&'a str>,
    ) -> Result<(), AllocError> {
        let (kind, class) = match self.class {
            MsgClass::Request(class) => ("request", class.word()),
            MsgClass::Forward(class) => ("forward", class.word()),
            MsgClass::Reply => ("reply", "data"),
        };
        words.push(kind)?;
        words.push(self.name.as_str())?;
        words.push(class)?;
        Ok(())
    }
}

/// Puts the words of a reply and a final state last.
fn put_pair<'a>(words: &mut Vec<&'a str>, draft: &'a Draft, pair: Pair) -> Result<(), AllocError>
    ensures { IfOk result (λ _. map (λ w. w.now) words.new.items
        ≡ map (λ w. w.now) words.old.items ++ words_in (text.pair_words draft.now pair ∷ [])) }
{
    words.push(reply_word(draft, pair.reply))?;
    words.push(cache_name(draft, usize::from(pair.fin)))?;
    Ok(())
}

/// Puts the words of replies and final states last.
fn put_pairs<'a>(
    words: &mut Vec<&'a str>,
    draft: &'a Draft,
    pairs: &[Pair],
) -> Result<(), AllocError>
    ensures { IfOk result (λ _. map (λ w. w.now) words.new.items
        ≡ map (λ w. w.now) words.old.items ++ words_in (map (text.pair_words draft.now) pairs.now)) }
{
    let mut left = pairs;
    while let Some((pair, rest)) = left.split_first() {
        put_pair(words, draft, *pair)?;
        left = rest;
    }
    Ok(())
}

/// Puts what stands after the event of a core line last.
fn put_form<'a>(
    words: &mut Vec<&'a str>,
    draft: &'a Draft,
    form: &CoreForm,
) -> Result<(), AllocError>
    ensures { IfOk result (λ _. map (λ w. w.now) words.new.items
        ≡ map (λ w. w.now) words.old.items ++ shape_words (text.core_shape draft.now form.now)) }
{
    match form {
        CoreForm::Hit(None) => words.push("hit")?,
        CoreForm::Hit(Some(next)) => {
            words.push("hit")?;
            words.push(cache_name(draft, usize::from(*next)))?;
        }
        CoreForm::Ask { request, pairs } => {
            words.push(message_name(draft, usize::from(*request)))?;
            put_pairs(words, draft, pairs.as_slice())?;
        }
        CoreForm::Leave { request } => words.push(message_name(draft, usize::from(*request)))?,
    }
    Ok(())
}

impl Spelled for CoreLine {
    ghost line = { text.core_line_of };

    fn put_words<'a>(
        &'a self,
        draft: &'a Draft,
        words: &mut Vec<&'a str>,
    ) -> Result<(), AllocError> {
        words.push("core")?;
        words.push(cache_name(draft, usize::from(self.state)))?;
        words.push(self.event.word())?;
        put_form(words, draft, &self.form)
    }
}

impl Spelled for TakeLine {
    ghost line = { text.take_line_of };

    fn put_words<'a>(
        &'a self,
        draft: &'a Draft,
        words: &mut Vec<&'a str>,
    ) -> Result<(), AllocError> {
        words.push("take")?;
        words.push(cache_name(draft, usize::from(self.state)))?;
        words.push(message_name(draft, usize::from(self.forward)))?;
        if let Some(reply) = self.reply {
            words.push(message_name(draft, usize::from(reply)))?;
        }
        words.push(cache_name(draft, usize::from(self.next)))?;
        Ok(())
    }
}

impl Spelled for RowLine {
    ghost line = { text.row_line_of };

    fn put_words<'a>(
        &'a self,
        draft: &'a Draft,
        words: &mut Vec<&'a str>,
    ) -> Result<(), AllocError> {
        words.push("row")?;
        words.push(dir_name(draft, usize::from(self.dir)))?;
        match self.form {
            RowForm::Ask {
                request,
                who,
                action,
            } => {
                words.push(message_name(draft, usize::from(request)))?;
                words.push(who.word())?;
                words.push(action_word(draft, action))?;
            }
            RowForm::Evict { who, left } => {
                words.push("evict")?;
                words.push(who.word())?;
                words.push(left.word())?;
            }
        }
        words.push(dir_name(draft, usize::from(self.next)))?;
        Ok(())
    }
}
