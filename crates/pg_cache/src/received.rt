use pg_messages::Ordered;
use pg_perm::Op;
use std::marker::Model;

/// What a line meets.
#[derive(Drop)]
pub struct Received {
    pub op: Op,
    pub who: u32,
    pub word: u32,
    pub count: u32,
    pub stamp: u32,
    pub message: Ordered,
    pub first: u8,
    pub late: bool,
}

impl Model for Received {
    ghost use Rattle.pg_controllers.specs.Lines.{Received};

    ghost Value = { Received };

    ghost view = { λ m. record { op = m.op; who = m.who; word = m.word; count = m.count; stamp = m.stamp; message = m.message; final = m.first; late = m.late } };
}
