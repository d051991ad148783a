ghost use Rattle.std.specs.Prelude.{◌≡◌};
ghost use Rattle.pg_sched.specs.Picks.{next_state, pick_of};

use std::marker::Model;

const MULTIPLIER: u64 = 6_364_136_223_846_793_005;

const INCREMENT: u64 = 1_442_695_040_888_963_407;

/// The picks of a schedule, by a linear congruential generator whose state contracts see. They are the same on each machine, and no secret.
#[derive(Debug, Drop)]
pub struct Pick {
    x: u64,
}

impl Model for Pick {
    ghost use Rattle.std.specs.Prelude.{ℕ};

    ghost Value = { ℕ };

    ghost view = { λ p. p.x };
}

impl Pick {
    /// The state starts as the seed, whichever it is.
    pub fn new(seed: u64) -> Pick
        ensures { result ≡ seed }
    {
        Pick { x: seed }
    }

    /// The next pick, a number below 2^31: the low bits of a state repeat too soon.
    pub fn next(&mut self) -> u64
        ensures state { self.new ≡ next_state self.old }
        ensures pick { result ≡ pick_of self.new }
    {
        self.x = self.x.wrapping_mul(MULTIPLIER).wrapping_add(INCREMENT);
        self.x >> 33
    }
}
