ghost use Rattle.std.specs.Prelude.{◌≡◌};
ghost use Rattle.std.specs.List.{list_all};
ghost use Rattle.std.specs.Option.{option_map};
ghost use Rattle.pg_perm.specs.Names.{is_state_name as is_state_name_of};
ghost use Rattle.pg_forms.specs.Pairs.{are_pairs as are_pairs_of};
ghost use Rattle.pg_forms.specs.Reading as forms;

use crate::line::{CoreShape, Line, RowShape};
use crate::pairs::NamePairs;
use crate::states::StateNames;
use pg_lines::Words;
use pg_perm::{Event, MsgClass, Who, Word, find_among, find_word, is_name, is_state_name};

#[tactic(auto, unfolding(crate::specs::Reading::name_at))]
fn name_at<'a>(words: &Words<'a>) -> Option<(Word, Words<'a>)>
    ensures { result ≡ forms.name_at words.now }
{
    let (word, rest) = words.first()?;
    if is_name(word) {
        Some((Word::new(word), rest))
    } else {
        None
    }
}

#[tactic(auto, unfolding(crate::specs::Reading::state_at))]
fn state_at<'a>(words: &Words<'a>) -> Option<(Word, Words<'a>)>
    ensures { result ≡ forms.state_at words.now }
{
    let (word, rest) = words.first()?;
    if is_state_name(word) {
        Some((Word::new(word), rest))
    } else {
        None
    }
}

fn no_words_left(words: &Words) -> Option<()>
    ensures { result ≡ forms.no_words_left words.now }
{
    match words.first() {
        None => Some(()),
        Some(_) => None,
    }
}

#[tactic(auto, unfolding(crate::specs::Reading::protocol_line))]
fn protocol_line<'a>(words: &Words<'a>) -> Option<Line<'a>>
    ensures { result ≡ forms.protocol_line words.now }
{
    let (name, rest) = name_at(words)?;
    no_words_left(&rest)?;
    Some(Line::Protocol { name })
}

fn clean_of(words: &Words) -> Option<bool>
    ensures { result ≡ forms.clean_of words.now }
{
    let Some((word, rest)) = words.first() else {
        return Some(false);
    };
    no_words_left(&rest)?;
    if word == b"clean".as_slice() {
        Some(true)
    } else {
        None
    }
}

#[tactic(auto, unfolding(crate::specs::Reading::cache_line))]
fn cache_line<'a>(words: &Words<'a>) -> Option<Line<'a>>
    ensures { result ≡ forms.cache_line words.now }
{
    let (name, rest) = state_at(words)?;
    let (word, rest) = rest.first()?;
    let role = find_word(word)?;
    let (word, rest) = rest.first()?;
    let perm = find_word(word)?;
    let clean = clean_of(&rest)?;
    Some(Line::Cache {
        name,
        role,
        perm,
        clean,
    })
}

/// Whether the words are all names of states.
fn are_states(words: &Words) -> bool
    ensures { result ≡ list_all is_state_name_of words.now }
{
    let mut left = words.again();
    while let Some((name, rest)) = left.first() {
        if !is_state_name(name) {
            return false;
        }
        left = rest;
    }
    true
}

#[tactic(auto, unfolding(crate::specs::Reading::dir_line))]
fn dir_line<'a>(words: &Words<'a>) -> Option<Line<'a>>
    ensures { result ≡ forms.dir_line words.now }
{
    let (name, rest) = state_at(words)?;
    let (word, rest) = rest.first()?;
    let kind = find_word(word)?;
    if are_states(&rest) {
        Some(Line::Dir {
            name,
            kind,
            beside: StateNames::new(rest),
        })
    } else {
        None
    }
}

#[tactic(auto, unfolding(crate::specs::Reading::forward_line))]
fn forward_line<'a>(words: &Words<'a>) -> Option<Line<'a>>
    ensures { result ≡ forms.forward_line words.now }
{
    let (name, rest) = name_at(words)?;
    let (word, rest) = rest.first()?;
    let class = find_word(word)?;
    no_words_left(&rest)?;
    Some(Line::Message {
        name,
        class: MsgClass::Forward(class),
    })
}

#[tactic(auto, unfolding(crate::specs::Reading::request_line))]
fn request_line<'a>(words: &Words<'a>) -> Option<Line<'a>>
    ensures { result ≡ forms.request_line words.now }
{
    let (name, rest) = name_at(words)?;
    let (word, rest) = rest.first()?;
    let class = find_word(word)?;
    no_words_left(&rest)?;
    Some(Line::Message {
        name,
        class: MsgClass::Request(class),
    })
}

#[tactic(auto, unfolding(crate::specs::Reading::reply_line))]
fn reply_line<'a>(words: &Words<'a>) -> Option<Line<'a>>
    ensures { result ≡ forms.reply_line words.now }
{
    let (name, rest) = name_at(words)?;
    let (word, rest) = rest.first()?;
    no_words_left(&rest)?;
    if word == b"data".as_slice() {
        Some(Line::Message {
            name,
            class: MsgClass::Reply,
        })
    } else {
        None
    }
}

/// Whether the words are replies and final states in turn.
fn are_pairs(words: &Words) -> bool
    ensures { result ≡ are_pairs_of words.now }
{
    let mut left = words.again();
    loop {
        let Some((reply, rest)) = left.first() else {
            return true;
        };
        let Some((fin, rest)) = rest.first() else {
            return false;
        };
        if !is_name(reply) || !is_state_name(fin) {
            return false;
        }
        left = rest;
    }
}

/// What `hit` leads to, with the state after it where one is there.
fn hit_shape<'a>(word: &[u8], next: Option<&[u8]>) -> Option<CoreShape<'a>>
    ensures { result ≡ forms.hit_shape word.now (option_map (λ w. w.now) next.entry) }
{
    if word != b"hit".as_slice() {
        return None;
    }
    match next {
        None => Some(CoreShape::Hit { next: None }),
        Some(next) => {
            if is_state_name(next) {
                Some(CoreShape::Hit {
                    next: Some(Word::new(next)),
                })
            } else {
                None
            }
        }
    }
}

fn ask_shape<'a>(word: &[u8], pairs: Words<'a>) -> Option<CoreShape<'a>>
    ensures { result ≡ forms.ask_shape word.now pairs.entry }
{
    if is_name(word) && are_pairs(&pairs) {
        Some(CoreShape::Ask {
            request: Word::new(word),
            pairs: NamePairs::new(pairs),
        })
    } else {
        None
    }
}

fn asking_shape<'a>(words: &Words<'a>) -> Option<CoreShape<'a>>
    ensures { result ≡ forms.asking_shape words.now }
{
    let (word, pairs) = words.first()?;
    match pairs.first() {
        None => hit_shape(word, None),
        Some((next, more)) => match more.first() {
            None => hit_shape(word, Some(next)),
            Some(_) => ask_shape(word, pairs),
        },
    }
}

#[tactic(auto, unfolding(crate::specs::Reading::leaving_shape))]
fn leaving_shape<'a>(words: &Words<'a>) -> Option<CoreShape<'a>>
    ensures { result ≡ forms.leaving_shape words.now }
{
    let (request, rest) = name_at(words)?;
    no_words_left(&rest)?;
    Some(CoreShape::Leave { request })
}

fn shape_of<'a>(event: Event, words: &Words<'a>) -> Option<CoreShape<'a>>
    ensures { result ≡ forms.shape_of event words.now }
{
    match event {
        Event::Load | Event::Store => asking_shape(words),
        Event::Evict => leaving_shape(words),
    }
}

#[tactic(auto, unfolding(crate::specs::Reading::core_line))]
fn core_line<'a>(words: &Words<'a>) -> Option<Line<'a>>
    ensures { result ≡ forms.core_line words.now }
{
    let (state, rest) = state_at(words)?;
    let (word, rest) = rest.first()?;
    let event = find_word(word)?;
    let shape = shape_of(event, &rest)?;
    Some(Line::Core {
        state,
        event,
        shape,
    })
}

/// A take line from its reply on, where it has one.
fn take_line_end<'a>(state: Word, forward: Word, words: &Words<'a>) -> Option<Line<'a>>
    ensures { result ≡ forms.take_line_end state forward words.now }
{
    let (first, rest) = words.first()?;
    match rest.first() {
        None => take_silent(state, forward, first),
        Some((second, rest)) => match rest.first() {
            None => take_replying(state, forward, first, second),
            Some(_) => None,
        },
    }
}

fn take_silent<'a>(state: Word, forward: Word, next: &[u8]) -> Option<Line<'a>>
    ensures { result ≡ forms.take_silent state forward next.now }
{
    if is_state_name(next) {
        Some(Line::Take {
            state,
            forward,
            reply: None,
            next: Word::new(next),
        })
    } else {
        None
    }
}

fn take_replying<'a>(state: Word, forward: Word, reply: &[u8], next: &[u8]) -> Option<Line<'a>>
    ensures { result ≡ forms.take_replying state forward reply.now next.now }
{
    if is_name(reply) && is_state_name(next) {
        Some(Line::Take {
            state,
            forward,
            reply: Some(Word::new(reply)),
            next: Word::new(next),
        })
    } else {
        None
    }
}

#[tactic(auto, unfolding(crate::specs::Reading::take_line))]
fn take_line<'a>(words: &Words<'a>) -> Option<Line<'a>>
    ensures { result ≡ forms.take_line words.now }
{
    let (state, rest) = state_at(words)?;
    let (forward, rest) = name_at(&rest)?;
    take_line_end(state, forward, &rest)
}

#[tactic(auto, unfolding(crate::specs::Reading::asking_row))]
fn asking_row<'a>(request: &[u8], words: &Words<'a>) -> Option<(RowShape, Words<'a>)>
    ensures { result ≡ forms.asking_row request.now words.now }
{
    let (word, rest) = words.first()?;
    let who = find_word(word)?;
    let (action, rest) = name_at(&rest)?;
    if is_name(request) {
        Some((
            RowShape::Ask {
                request: Word::new(request),
                who,
                action,
            },
            rest,
        ))
    } else {
        None
    }
}

#[tactic(auto, unfolding(crate::specs::Reading::evicting_row))]
fn evicting_row<'a>(words: &Words<'a>) -> Option<(RowShape, Words<'a>)>
    ensures { result ≡ forms.evicting_row words.now }
{
    let (word, rest) = words.first()?;
    let who = find_among(&[Who::Sharer, Who::Owner], word)?;
    let (word, rest) = rest.first()?;
    let left = find_word(word)?;
    Some((RowShape::Evict { who, left }, rest))
}

fn row_shape<'a>(word: &[u8], words: &Words<'a>) -> Option<(RowShape, Words<'a>)>
    ensures { result ≡ forms.row_shape word.now words.now }
{
    if word == b"evict".as_slice() {
        evicting_row(words)
    } else {
        asking_row(word, words)
    }
}

#[tactic(auto, unfolding(crate::specs::Reading::row_line))]
fn row_line<'a>(words: &Words<'a>) -> Option<Line<'a>>
    ensures { result ≡ forms.row_line words.now }
{
    let (dir, rest) = state_at(words)?;
    let (word, rest) = rest.first()?;
    let (shape, rest) = row_shape(word, &rest)?;
    let (next, rest) = state_at(&rest)?;
    no_words_left(&rest)?;
    Some(Line::Row { dir, shape, next })
}

#[tactic(auto, unfolding(crate::specs::Reading::end_line))]
fn end_line<'a>(words: &Words<'a>) -> Option<Line<'a>>
    ensures { result ≡ forms.end_line words.now }
{
    no_words_left(words)?;
    Some(Line::End)
}

fn line_by_first_word<'a>(word: &[u8], words: &Words<'a>) -> Option<Line<'a>>
    ensures { result ≡ forms.line_by_first_word word.now words.now }
{
    if word == b"protocol".as_slice() {
        protocol_line(words)
    } else if word == b"cache".as_slice() {
        cache_line(words)
    } else if word == b"dir".as_slice() {
        dir_line(words)
    } else if word == b"request".as_slice() {
        request_line(words)
    } else if word == b"forward".as_slice() {
        forward_line(words)
    } else if word == b"reply".as_slice() {
        reply_line(words)
    } else if word == b"core".as_slice() {
        core_line(words)
    } else if word == b"take".as_slice() {
        take_line(words)
    } else if word == b"row".as_slice() {
        row_line(words)
    } else if word == b"end".as_slice() {
        end_line(words)
    } else {
        None
    }
}

/// The line that the words are, or none where they are in none of the forms.
#[tactic(auto, unfolding(crate::specs::Reading::line_of))]
pub fn line_of<'a>(words: &Words<'a>) -> Option<Line<'a>>
    ensures { result ≡ forms.line_of words.now }
{
    let (word, rest) = words.first()?;
    line_by_first_word(word, &rest)
}
