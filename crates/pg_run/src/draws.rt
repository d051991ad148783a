ghost use Rattle.std.specs.Prelude.{◌≡◌};
ghost use Rattle.pg_run.specs.Schedules.{draws_of, draw, drawn_pick};

use pg_sched::Pick;
use std::marker::Model;

/// What is drawn from a seed. With seed 0 nothing is drawn, and each pick is 0.
#[derive(Debug, Drop)]
pub struct Draws {
    pick: Option<Pick>,
}

impl Model for Draws {
    ghost use Rattle.std.specs.Prelude.{ℕ, Option};

    ghost Value = { Option ℕ };

    ghost view = { λ d. d.pick };
}

impl Draws {
    pub fn new(seed: u64) -> Draws
        ensures { result ≡ draws_of seed }
    {
        if seed == 0 {
            Draws { pick: None }
        } else {
            Draws {
                pick: Some(Pick::new(seed)),
            }
        }
    }

    /// The next pick.
    pub fn next(&mut self) -> u64
        ensures state { self.new ≡ draw self.old }
        ensures pick { result ≡ drawn_pick self.new }
    {
        match &mut self.pick {
            None => 0,
            Some(pick) => pick.next(),
        }
    }
}
