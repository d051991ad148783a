ghost use Rattle.std.specs.Prelude.{◌≡◌, ◌<◌, [], ◌∷◌, ◌++◌, length, IfOk, slice_get};
ghost use Rattle.std.specs.Option.{option_copied};

use pg_messages::Ordered;
use std::alloc::{AllocError, Global};
use std::marker::Model;

/// The messages on their way from the directory to one core, in order. `make` takes the room for them.
#[derive(Drop)]
pub struct Queue {
    items: Vec<Ordered>,
}

impl Model for Queue {
    ghost use Rattle.std.specs.Prelude.{vec_capacity};
    ghost use Rattle.pg_queue.specs.Nets.{Queue};

    ghost Value = { Queue };

    ghost view = { λ q. record { items = q.items.items; room = vec_capacity q.items } };
}

impl Queue {
    pub fn make(alloc: Global, room: usize) -> Result<Queue, AllocError>
        ensures { IfOk result (λ q. q ≡ record { items = []; room = room }) }
    {
        Ok(Queue {
            items: Vec::with_capacity(alloc, room)?,
        })
    }

    pub fn head(&self) -> Option<&Ordered>
        ensures { option_copied result ≡ slice_get self.now.items 0 }
    {
        self.items.first()
    }

    pub fn push(&mut self, message: Ordered)
        requires { length self.old.items < self.old.room }
        ensures { self.new ≡ record self.old { items = self.old.items ++ message ∷ [] } }
    {
        self.items.push_reserved(message);
    }

    pub fn pop(&mut self) -> Ordered
        requires { 0 < length self.old.items }
        ensures items { self.old.items ≡ result ∷ self.new.items }
        ensures room { self.new.room ≡ self.old.room }
    {
        self.items.remove(0)
    }
}
