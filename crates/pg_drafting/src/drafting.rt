ghost use Rattle.std.specs.Prelude.{◌≡◌, IfOk, length, nat_le, is_some, bytes_eq, if◌then◌else◌};
ghost use Rattle.std.specs.List.{list_any};
ghost use Rattle.pg_perm.specs.Classes.{is_request, is_forward, is_reply};
ghost use Rattle.pg_perm.specs.Drafts.{taken_names, rule_line_count};
ghost use Rattle.pg_drafting.specs.Numbering as draft;
ghost use Rattle.pg_drafting.specs.Numbering.{no_draft, draft_within_limits, draft_with_line};

use crate::named::NamedLines;
use pg_faults::LineError;
use pg_forms::{CoreShape, Line, NamePairs, RowShape, StateNames};
use pg_perm::{
    Action, CacheLine, CoreForm, CoreLine, Cores, DirKind, DirLine, Draft, Event, MsgClass,
    MsgLine, Pair, Pairs, ReplyName, RowForm, RowLine, Rows, Rule, Sequence, States, TakeLine,
    Takes, Word,
};
use std::alloc::{AllocError, Global};

/// The most lines that declare a cache state.
const CACHE_LIMIT: usize = 16;

/// The most lines that declare a directory state.
const DIR_LIMIT: usize = 16;

/// The most lines that declare a message.
const MESSAGE_LIMIT: usize = 32;

/// The most core, take and row lines together.
const RULE_LIMIT: usize = 512;

/// Whether no message may have this name.
fn is_taken_name(name: &[u8]) -> bool
    ensures { result ≡ list_any (bytes_eq name.now) taken_names }
{
    name == b"InvAck".as_slice()
        || name == b"PutAck".as_slice()
        || name == b"AckCount".as_slice()
        || name == b"WbData".as_slice()
        || name == b"hit".as_slice()
        || name == b"count".as_slice()
        || name == b"evict".as_slice()
}

/// The draft of the lines so far.
#[derive(Drop)]
pub struct Drafting {
    line: u32,
    name: Word,
    caches: NamedLines<CacheLine>,
    dirs: NamedLines<DirLine>,
    messages: NamedLines<MsgLine>,
    cores: Cores,
    takes: Takes,
    rows: Rows,
}

impl Drafting {
    ghost use Rattle.pg_drafting.specs.Draft.{draft_of, Drafts};

    /// The number of a cache state.
    fn cache_number(&self, name: &Word) -> Option<u8>
        ensures { result ≡ draft.cache_number (draft_of self.now) name.now }
    {
        self.caches.find(name)
    }

    /// The number of a directory state.
    fn dir_number(&self, name: &Word) -> Option<u8>
        ensures { result ≡ draft.dir_number (draft_of self.now) name.now }
    {
        self.dirs.find(name)
    }

    /// The number of a request.
    #[tactic(auto, unfolding(crate::specs::Numbering::message_number))]
    fn request_number(&self, name: &Word) -> Option<u8>
        ensures { result ≡ draft.message_number is_request (draft_of self.now) name.now }
    {
        let number = self.messages.find(name)?;
        let message = self.messages.get(number)?;
        match message.class {
            MsgClass::Request(_) => Some(number),
            _ => None,
        }
    }

    /// The number of a forward.
    #[tactic(auto, unfolding(crate::specs::Numbering::message_number))]
    fn forward_number(&self, name: &Word) -> Option<u8>
        ensures { result ≡ draft.message_number is_forward (draft_of self.now) name.now }
    {
        let number = self.messages.find(name)?;
        let message = self.messages.get(number)?;
        match message.class {
            MsgClass::Forward(_) => Some(number),
            _ => None,
        }
    }

    /// The number of a reply.
    #[tactic(auto, unfolding(crate::specs::Numbering::message_number))]
    fn reply_number(&self, name: &Word) -> Option<u8>
        ensures { result ≡ draft.message_number is_reply (draft_of self.now) name.now }
    {
        let number = self.messages.find(name)?;
        let message = self.messages.get(number)?;
        match message.class {
            MsgClass::Reply => Some(number),
            _ => None,
        }
    }

    fn reply_name(&self, name: &Word) -> Option<ReplyName>
        ensures { result ≡ draft.reply_name (draft_of self.now) name.now }
    {
        if name.bytes() == b"AckCount".as_slice() {
            return Some(ReplyName::AckCount);
        }
        let number = self.reply_number(name)?;
        Some(ReplyName::Reply(number))
    }

    #[tactic(auto, unfolding(crate::specs::Numbering::pair_of))]
    fn pair(&self, reply: &Word, fin: &Word) -> Option<Pair>
        ensures { result ≡ draft.pair_of (draft_of self.now) reply.now fin.now }
    {
        let reply = self.reply_name(reply)?;
        let fin = self.cache_number(fin)?;
        Some(Pair { reply, fin })
    }

    /// The replies and final states in numbers, or none where one isn't declared.
    fn pairs(&self, alloc: Global, names: &NamePairs) -> Result<Option<Pairs>, AllocError>
        ensures { IfOk result (λ pairs. pairs ≡ draft.pairs_of (draft_of self.now) names.now) }
    {
        let mut pairs = Pairs::new(alloc);
        let mut left = names.again();
        while let Some((reply, fin, rest)) = left.first() {
            let Some(pair) = self.pair(&reply, &fin) else {
                return Ok(None);
            };
            pairs.push(pair)?;
            left = rest;
        }
        Ok(Some(pairs))
    }

    /// What stands after the event of a core line in numbers, or none where a name isn't declared.
    #[tactic(auto, unfolding(crate::specs::Numbering::core_form))]
    fn core_form(&self, alloc: Global, shape: &CoreShape) -> Result<Option<CoreForm>, AllocError>
        ensures { IfOk result (λ form. form ≡ draft.core_form (draft_of self.now) shape.now) }
    {
        match shape {
            CoreShape::Hit { next: None } => Ok(Some(CoreForm::Hit(None))),
            CoreShape::Hit { next: Some(name) } => {
                let Some(next) = self.cache_number(name) else {
                    return Ok(None);
                };
                Ok(Some(CoreForm::Hit(Some(next))))
            }
            CoreShape::Ask { request, pairs } => {
                let Some(request) = self.request_number(request) else {
                    return Ok(None);
                };
                let Some(pairs) = self.pairs(alloc, pairs)? else {
                    return Ok(None);
                };
                Ok(Some(CoreForm::Ask { request, pairs }))
            }
            CoreShape::Leave { request } => {
                let Some(request) = self.request_number(request) else {
                    return Ok(None);
                };
                Ok(Some(CoreForm::Leave { request }))
            }
        }
    }

    /// Cache states in numbers, or none where one isn't declared.
    fn states(&self, alloc: Global, names: &StateNames) -> Result<Option<States>, AllocError>
        ensures { IfOk result (λ states. states ≡ draft.states_of (draft_of self.now) names.now) }
    {
        let mut states = States::new(alloc);
        let mut left = names.again();
        while let Some((name, rest)) = left.first() {
            let Some(state) = self.cache_number(&name) else {
                return Ok(None);
            };
            states.push(state)?;
            left = rest;
        }
        Ok(Some(states))
    }

    /// The reply of a take line, where it has one, or none where it isn't declared.
    #[tactic(auto, unfolding(crate::specs::Numbering::take_reply))]
    fn take_reply(&self, reply: &Option<Word>) -> Option<Option<u8>>
        ensures { result ≡ draft.take_reply (draft_of self.now) reply.now }
    {
        match reply {
            None => Some(None),
            Some(name) => {
                let reply = self.reply_number(name)?;
                Some(Some(reply))
            }
        }
    }

    /// The action of a row line.
    #[tactic(auto, unfolding(crate::specs::Numbering::action_of))]
    fn action(&self, name: &Word) -> Option<Action>
        ensures { result ≡ draft.action_of (draft_of self.now) name.now }
    {
        if name.bytes() == b"count".as_slice() {
            return Some(Action::Count);
        }
        let number = self.messages.find(name)?;
        let message = self.messages.get(number)?;
        match message.class {
            MsgClass::Request(_) => None,
            MsgClass::Forward(_) => Some(Action::Forward(number)),
            MsgClass::Reply => Some(Action::Reply(number)),
        }
    }

    /// What stands after the state of a row line in numbers, or none where a name isn't declared.
    #[tactic(auto, unfolding(crate::specs::Numbering::row_form))]
    fn row_form(&self, shape: &RowShape) -> Option<RowForm>
        ensures { result ≡ draft.row_form (draft_of self.now) shape.now }
    {
        match shape {
            RowShape::Ask {
                request,
                who,
                action,
            } => {
                let request = self.request_number(request)?;
                let action = self.action(action)?;
                Some(RowForm::Ask {
                    request,
                    who: *who,
                    action,
                })
            }
            RowShape::Evict { who, left } => Some(RowForm::Evict {
                who: *who,
                left: *left,
            }),
        }
    }

    fn declare_protocol(&mut self, number: u32, name: Word) -> Result<(), LineError<Rule>>
        ensures { Drafts self.new result
            (draft_with_line (draft_of self.old) number (Line.Protocol name)) }
    {
        self.line = number;
        self.name = name;
        Ok(())
    }

    fn declare_cache(&mut self, cache: CacheLine) -> Result<(), LineError<Rule>>
        ensures { Drafts self.new result (draft_with_line (draft_of self.old) cache.line
            (Line.Cache cache.name cache.role cache.perm cache.clean)) }
    {
        if self.caches.declares(&cache.name) {
            return Err(LineError::Breaks(Rule::F3));
        }
        if self.caches.len() >= CACHE_LIMIT {
            return Err(LineError::Breaks(Rule::F5));
        }
        self.caches.push(cache)?;
        Ok(())
    }

    fn declare_message(&mut self, message: MsgLine) -> Result<(), LineError<Rule>>
        ensures { Drafts self.new result (draft_with_line (draft_of self.old) message.line
            (Line.Message message.name message.class)) }
    {
        if is_taken_name(message.name.bytes()) || self.messages.declares(&message.name) {
            return Err(LineError::Breaks(Rule::F3));
        }
        if self.messages.len() >= MESSAGE_LIMIT {
            return Err(LineError::Breaks(Rule::F5));
        }
        self.messages.push(message)?;
        Ok(())
    }

    /// The core line in numbers, or none where a name isn't declared.
    #[tactic(auto, unfolding(crate::specs::Numbering::core_of))]
    fn core(
        &self,
        alloc: Global,
        number: u32,
        state: &Word,
        event: Event,
        shape: &CoreShape,
    ) -> Result<Option<CoreLine>, AllocError>
        ensures { IfOk result (λ core. core
            ≡ draft.core_of (draft_of self.now) number state.now event shape.now) }
    {
        let Some(state) = self.cache_number(state) else {
            return Ok(None);
        };
        let Some(form) = self.core_form(alloc, shape)? else {
            return Ok(None);
        };
        Ok(Some(CoreLine {
            line: number,
            state,
            event,
            form,
        }))
    }

    /// Puts a core line last, or none for one that uses a name which isn't declared.
    fn put_core(&mut self, core: Option<CoreLine>) -> Result<(), LineError<Rule>>
        ensures { let d = draft_of self.old in
            Drafts self.new result (draft_within_limits (draft.put_core d core) (nat_le 512 (rule_line_count d))) }
    {
        let Some(core) = core else {
            return Err(LineError::Breaks(Rule::F4));
        };
        if self.has_all_rules() {
            return Err(LineError::Breaks(Rule::F5));
        }
        self.cores.push(core)?;
        Ok(())
    }

    fn add_core(
        &mut self,
        alloc: Global,
        number: u32,
        state: Word,
        event: Event,
        shape: CoreShape,
    ) -> Result<(), LineError<Rule>>
        ensures { Drafts self.new result
            (draft_with_line (draft_of self.old) number (Line.Core state event shape.entry)) }
    {
        let core = self.core(alloc, number, &state, event, &shape)?;
        self.put_core(core)
    }

    /// Puts a dir line last, whose states are none where one isn't declared.
    fn put_dir(
        &mut self,
        number: u32,
        name: Word,
        kind: DirKind,
        beside: Option<States>,
    ) -> Result<(), LineError<Rule>>
        ensures { let d = draft_of self.old in
            Drafts self.new result (if is_some (draft.dir_number d name) then Err Rule.F3
            else draft_within_limits (draft.put_dir d number name kind beside) (nat_le 16 (length d.dirs))) }
    {
        if self.dirs.declares(&name) {
            return Err(LineError::Breaks(Rule::F3));
        }
        let Some(beside) = beside else {
            return Err(LineError::Breaks(Rule::F4));
        };
        if self.dirs.len() >= DIR_LIMIT {
            return Err(LineError::Breaks(Rule::F5));
        }
        self.dirs.push(DirLine {
            line: number,
            name,
            kind,
            beside,
        })?;
        Ok(())
    }

    fn declare_dir(
        &mut self,
        alloc: Global,
        number: u32,
        name: Word,
        kind: DirKind,
        names: StateNames,
    ) -> Result<(), LineError<Rule>>
        ensures { Drafts self.new result
            (draft_with_line (draft_of self.old) number (Line.Dir name kind names.entry)) }
    {
        let beside = self.states(alloc, &names)?;
        self.put_dir(number, name, kind, beside)
    }

    /// The take line in numbers, or none where a name isn't declared.
    #[tactic(auto, unfolding(crate::specs::Numbering::take_of))]
    fn take(
        &self,
        number: u32,
        state: &Word,
        forward: &Word,
        reply: &Option<Word>,
        next: &Word,
    ) -> Option<TakeLine>
        ensures { result
            ≡ draft.take_of (draft_of self.now) number state.now forward.now reply.now next.now }
    {
        let state = self.cache_number(state)?;
        let forward = self.forward_number(forward)?;
        let reply = self.take_reply(reply)?;
        let next = self.cache_number(next)?;
        Some(TakeLine {
            line: number,
            state,
            forward,
            reply,
            next,
        })
    }

    /// Puts a take line last, or none for one that uses a name which isn't declared.
    fn put_take(&mut self, take: Option<TakeLine>) -> Result<(), LineError<Rule>>
        ensures { let d = draft_of self.old in
            Drafts self.new result (draft_within_limits (draft.put_take d take) (nat_le 512 (rule_line_count d))) }
    {
        let Some(take) = take else {
            return Err(LineError::Breaks(Rule::F4));
        };
        if self.has_all_rules() {
            return Err(LineError::Breaks(Rule::F5));
        }
        self.takes.push(take)?;
        Ok(())
    }

    /// The row line in numbers, or none where a name isn't declared.
    #[tactic(auto, unfolding(crate::specs::Numbering::row_of))]
    fn row(&self, number: u32, dir: &Word, shape: &RowShape, next: &Word) -> Option<RowLine>
        ensures { result ≡ draft.row_of (draft_of self.now) number dir.now shape.now next.now }
    {
        let dir = self.dir_number(dir)?;
        let form = self.row_form(shape)?;
        let next = self.dir_number(next)?;
        Some(RowLine {
            line: number,
            dir,
            form,
            next,
        })
    }

    /// Puts a row line last, or none for one that uses a name which isn't declared.
    fn put_row(&mut self, row: Option<RowLine>) -> Result<(), LineError<Rule>>
        ensures { let d = draft_of self.old in
            Drafts self.new result (draft_within_limits (draft.put_row d row) (nat_le 512 (rule_line_count d))) }
    {
        let Some(row) = row else {
            return Err(LineError::Breaks(Rule::F4));
        };
        if self.has_all_rules() {
            return Err(LineError::Breaks(Rule::F5));
        }
        self.rows.push(row)?;
        Ok(())
    }

    /// Whether there are as many core, take and row lines as there may be.
    fn has_all_rules(&self) -> bool
        ensures { result ≡ nat_le 512 (rule_line_count (draft_of self.now)) }
    {
        let count = self.cores.len().saturating_add(self.takes.len());
        count.saturating_add(self.rows.len()) >= RULE_LIMIT
    }

    /// Adds line `number`, or says which of the rules F3 to F5 it breaks first, its number of words
    /// aside. After an error the draft is given up.
    pub fn add_line(
        &mut self,
        alloc: Global,
        number: u32,
        line: Line,
    ) -> Result<(), LineError<Rule>>
        ensures { Drafts self.new result (draft_with_line (draft_of self.old) number line.entry) }
    {
        match line {
            Line::Protocol { name } => self.declare_protocol(number, name),
            Line::Cache {
                name,
                role,
                perm,
                clean,
            } => self.declare_cache(CacheLine {
                line: number,
                name,
                role,
                perm,
                clean,
            }),
            Line::Dir { name, kind, beside } => {
                self.declare_dir(alloc, number, name, kind, beside)
            }
            Line::Message { name, class } => self.declare_message(MsgLine {
                line: number,
                name,
                class,
            }),
            Line::Core {
                state,
                event,
                shape,
            } => self.add_core(alloc, number, state, event, shape),
            Line::Take {
                state,
                forward,
                reply,
                next,
            } => {
                let take = self.take(number, &state, &forward, &reply, &next);
                self.put_take(take)
            }
            Line::Row { dir, shape, next } => {
                let row = self.row(number, &dir, &shape, &next);
                self.put_row(row)
            }
            Line::End => Ok(()),
        }
    }

    /// No lines.
    pub fn new(alloc: Global) -> Drafting
        ensures { draft_of result ≡ no_draft }
    {
        Drafting {
            line: 0,
            name: Word::new(b"none"),
            caches: NamedLines::new(alloc),
            dirs: NamedLines::new(alloc),
            messages: NamedLines::new(alloc),
            cores: Sequence::new(alloc),
            takes: Sequence::new(alloc),
            rows: Sequence::new(alloc),
        }
    }

    pub fn into_draft(self) -> Draft
        ensures { result ≡ draft_of self }
    {
        let Drafting {
            line,
            name,
            caches,
            dirs,
            messages,
            cores,
            takes,
            rows,
        } = self;
        Draft {
            line,
            name,
            caches: caches.into_lines(),
            dirs: dirs.into_lines(),
            messages: messages.into_lines(),
            cores,
            takes,
            rows,
        }
    }
}
