ghost use Rattle.pg_wait.specs.Waits as waits;
ghost use Rattle.std.specs.Prelude.{◌≡◌, ◌<◌, [], ◌∷◌, length, IfOk, IfSome, IfNone};

use pg_messages::Ordered;
use std::alloc::{AllocError, Global};
use std::marker::Model;

/// The forwards that a line deferred, the oldest first. They are answered in this order once its operation is done.
///
/// `make` takes the room for all of them, so that nothing takes memory afterwards.
#[derive(Debug, Drop)]
pub struct Deferred {
    items: Vec<Ordered>,
}

impl Model for Deferred {
    ghost use Rattle.std.specs.Prelude.{vec_capacity, ◌<◌};
    ghost use Rattle.pg_wait.specs.Waits.{DeferredForwards};

    ghost Value = { DeferredForwards };

    ghost view = { λ q. record { items = q.items.items; room = vec_capacity q.items } };

    ghost invariant = { λ q. vec_capacity q.items < 4294967296 };
}

impl Deferred {
    /// Room for this many, and none deferred.
    pub fn make(alloc: Global, room: u32) -> Result<Deferred, AllocError>
        ensures { IfOk result (λ q. q ≡ waits.none_deferred room) }
    {
        Ok(Deferred {
            items: Vec::with_capacity(alloc, room as usize)?,
        })
    }

    /// How many are deferred.
    pub fn len(&self) -> u32
        ensures { result ≡ length self.now.items }
    {
        self.items.len() as u32
    }

    /// Defers one more, for which there is room.
    pub fn push(&mut self, m: Ordered)
        requires { length self.old.items < self.old.room }
        ensures { self.new ≡ waits.with_deferred m self.old }
    {
        self.items.push_reserved(m);
    }

    /// Takes the oldest, or gives none where none is deferred.
    pub fn pop(&mut self) -> Option<Ordered>
        ensures oldest { IfSome result (λ m. self.old.items ≡ m ∷ self.new.items) }
        ensures none { IfNone result (self.old.items ≡ []) }
        ensures same { IfNone result (self.new ≡ self.old) }
        ensures room { self.new.room ≡ self.old.room }
    {
        if self.items.is_empty() {
            return None;
        }
        Some(self.items.remove(0))
    }
}
