//! The words by which texts, tables and histories call the kinds.
ghost use Rattle.std.specs.Prelude.{refl};
ghost use Rattle.pg_perm.specs.Words as word;

use crate::kinds::{DirKind, Event, FwdClass, Left, Mode, Perm, ReqClass, Role, Who};
use crate::vocabulary::Vocabulary;

impl Vocabulary for Role {
    ghost all = { word.roles };

    ghost word = { word.role_word };

    fn all() -> &'static [Role] {
        &[Role::Out, Role::Shared, Role::Owner]
    }

    fn word(self) -> &'static str {
        match self {
            Role::Out => "out",
            Role::Shared => "shared",
            Role::Owner => "owner",
        }
    }

    ghost listed = { word.roles_listed };

    ghost apart = { refl };
}

impl Vocabulary for Perm {
    ghost all = { word.perms };

    ghost word = { word.perm_word };

    fn all() -> &'static [Perm] {
        &[Perm::None, Perm::Read, Perm::Write]
    }

    fn word(self) -> &'static str {
        match self {
            Perm::None => "none",
            Perm::Read => "read",
            Perm::Write => "write",
        }
    }

    ghost listed = { word.perms_listed };

    ghost apart = { refl };
}

impl Vocabulary for DirKind {
    ghost all = { word.dir_kinds };

    ghost word = { word.dir_word };

    fn all() -> &'static [DirKind] {
        &[
            DirKind::Idle,
            DirKind::Shared,
            DirKind::Owned,
            DirKind::Mixed,
        ]
    }

    fn word(self) -> &'static str {
        match self {
            DirKind::Idle => "idle",
            DirKind::Shared => "shared",
            DirKind::Owned => "owned",
            DirKind::Mixed => "mixed",
        }
    }

    ghost listed = { word.dir_kinds_listed };

    ghost apart = { refl };
}

impl Vocabulary for ReqClass {
    ghost all = { word.requests };

    ghost word = { word.request_word };

    fn all() -> &'static [ReqClass] {
        &[
            ReqClass::Read,
            ReqClass::Write,
            ReqClass::Clean,
            ReqClass::Dirty,
        ]
    }

    fn word(self) -> &'static str {
        match self {
            ReqClass::Read => "read",
            ReqClass::Write => "write",
            ReqClass::Clean => "clean",
            ReqClass::Dirty => "dirty",
        }
    }

    ghost listed = { word.requests_listed };

    ghost apart = { refl };
}

impl Vocabulary for FwdClass {
    ghost all = { word.forwards };

    ghost word = { word.forward_word };

    fn all() -> &'static [FwdClass] {
        &[
            FwdClass::Inv,
            FwdClass::Share,
            FwdClass::Keep,
            FwdClass::Drop,
        ]
    }

    fn word(self) -> &'static str {
        match self {
            FwdClass::Inv => "inv",
            FwdClass::Share => "share",
            FwdClass::Keep => "keep",
            FwdClass::Drop => "drop",
        }
    }

    ghost listed = { word.forwards_listed };

    ghost apart = { refl };
}

impl Vocabulary for Event {
    ghost all = { word.events };

    ghost word = { word.event_word };

    fn all() -> &'static [Event] {
        &[Event::Load, Event::Store, Event::Evict]
    }

    fn word(self) -> &'static str {
        match self {
            Event::Load => "load",
            Event::Store => "store",
            Event::Evict => "evict",
        }
    }

    ghost listed = { word.events_listed };

    ghost apart = { refl };
}

impl Vocabulary for Who {
    ghost all = { word.senders };

    ghost word = { word.who_word };

    fn all() -> &'static [Who] {
        &[Who::Other, Who::Sharer, Who::Owner]
    }

    fn word(self) -> &'static str {
        match self {
            Who::Other => "other",
            Who::Sharer => "sharer",
            Who::Owner => "owner",
        }
    }

    ghost listed = { word.senders_listed };

    ghost apart = { refl };
}

impl Vocabulary for Left {
    ghost all = { word.lefts };

    ghost word = { word.left_word };

    fn all() -> &'static [Left] {
        &[Left::Last, Left::More]
    }

    fn word(self) -> &'static str {
        match self {
            Left::Last => "last",
            Left::More => "more",
        }
    }

    ghost listed = { word.lefts_listed };

    ghost apart = { refl };
}

impl Vocabulary for Mode {
    ghost all = { word.modes };

    ghost word = { word.mode_word };

    fn all() -> &'static [Mode] {
        &[Mode::Stall, Mode::Defer]
    }

    fn word(self) -> &'static str {
        match self {
            Mode::Stall => "stall",
            Mode::Defer => "defer",
        }
    }

    ghost listed = { word.modes_listed };

    ghost apart = { refl };
}
