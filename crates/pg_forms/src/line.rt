ghost use Rattle.std.specs.Prelude.{◌≡◌};
ghost use Rattle.pg_forms.specs.Kinds.{kind_of, rank_of, is_protocol, is_end};

use crate::pairs::NamePairs;
use crate::states::StateNames;
use pg_perm::{DirKind, Event, Left, MsgClass, Perm, Role, Who, Word};

/// A line in one of the forms of a text. Its names are still words, which may be declared nowhere.
#[derive(Debug, Drop)]
pub enum Line<'a> {
    Protocol {
        name: Word,
    },
    Cache {
        name: Word,
        role: Role,
        perm: Perm,
        clean: bool,
    },
    Dir {
        name: Word,
        kind: DirKind,
        beside: StateNames<'a>,
    },
    Message {
        name: Word,
        class: MsgClass,
    },
    Core {
        state: Word,
        event: Event,
        shape: CoreShape<'a>,
    },
    Take {
        state: Word,
        forward: Word,
        reply: Option<Word>,
        next: Word,
    },
    Row {
        dir: Word,
        shape: RowShape,
        next: Word,
    },
    End,
}

/// What stands after the event of a core line.
#[derive(Debug, Drop)]
pub enum CoreShape<'a> {
    /// `hit`, and perhaps the state that the line goes to.
    Hit { next: Option<Word> },
    /// A request, and then replies and final states in turn.
    Ask { request: Word, pairs: NamePairs<'a> },
    /// The request of an evict.
    Leave { request: Word },
}

/// What stands between the directory state of a row line and its next state.
#[derive(Debug, Drop)]
pub enum RowShape {
    /// A request, who sends it, and a reply, a forward or `count`.
    Ask {
        request: Word,
        who: Who,
        action: Word,
    },
    /// `evict`, who sends it, and whether sharers are left.
    Evict {
        who: Who,
        left: Left,
    },
}

/// The kinds of lines, in the order in which they stand in a text.
#[derive(Clone, Copy, Debug, PartialEq, Eq)]
pub enum Kind {
    Protocol,
    Cache,
    Dir,
    Request,
    Forward,
    Reply,
    Core,
    Take,
    Row,
    End,
}

impl Kind {
    pub fn is_protocol(self) -> bool
        ensures { result ≡ is_protocol self }
    {
        matches!(self, Kind::Protocol)
    }

    pub fn is_end(self) -> bool
        ensures { result ≡ is_end self }
    {
        matches!(self, Kind::End)
    }

    /// How many kinds stand before this one.
    pub fn rank(self) -> u8
        ensures { result ≡ rank_of self }
    {
        self as u8
    }
}

impl Line<'_> {
    pub fn kind(&self) -> Kind
        ensures { result ≡ kind_of self.now }
    {
        match self {
            Line::Protocol { .. } => Kind::Protocol,
            Line::Cache { .. } => Kind::Cache,
            Line::Dir { .. } => Kind::Dir,
            Line::Message { class, .. } => match class {
                MsgClass::Request(_) => Kind::Request,
                MsgClass::Forward(_) => Kind::Forward,
                MsgClass::Reply => Kind::Reply,
            },
            Line::Core { .. } => Kind::Core,
            Line::Take { .. } => Kind::Take,
            Line::Row { .. } => Kind::Row,
            Line::End => Kind::End,
        }
    }
}
