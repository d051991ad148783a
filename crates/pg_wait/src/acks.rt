ghost use Rattle.pg_wait.specs.Waits as waits;
ghost use Rattle.std.specs.Prelude.{◌≡◌, ◌<◌, IsTrue, ◌↔◌};

use std::marker::Model;

/// How many invalidation acknowledgements an outstanding operation needs, where that is known, and how many were got. They may be got before
/// their number is known.
#[derive(Debug, Drop)]
pub struct Acks {
    need: Option<u32>,
    got: u32,
}

impl Model for Acks {
    ghost use Rattle.pg_wait.specs.Waits.{AckState};

    ghost Value = { AckState };

    ghost view = { λ a. record { need = a.need; got = a.got } };
}

impl Acks {
    /// None was got, and it isn't known how many are needed.
    pub fn fresh() -> Acks
        ensures { result ≡ waits.no_acks }
    {
        Acks { need: None, got: 0 }
    }

    /// One more was got. There are at most 64, one for each core.
    pub fn got_one(&mut self)
        requires { self.old.got < 64 }
        ensures { self.new ≡ waits.with_ack self.old }
    {
        self.got += 1;
    }

    /// The number that is needed is known now.
    pub fn need_is(&mut self, n: u32)
        ensures { self.new ≡ waits.with_need n self.old }
    {
        self.need = Some(n);
    }

    /// Whether all were got, and it is known that these are all.
    pub fn done(&self) -> bool
        ensures { IsTrue result ↔ waits.AreAllGot self.now }
    {
        self.need == Some(self.got)
    }

    /// Whether one more would be the last that is needed.
    pub fn next_is_last(&self) -> bool
        ensures { result ≡ waits.is_next_last self.now }
    {
        match self.need {
            Some(n) => u64::from(n) == u64::from(self.got) + 1,
            None => false,
        }
    }

    /// Whether all were got, if it is this number that is needed.
    pub fn would_finish(&self, n: u32) -> bool
        ensures { IsTrue result ↔ waits.AreAllGot (waits.with_need n self.now) }
    {
        self.got == n
    }
}
