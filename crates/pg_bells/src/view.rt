//! The rule of the queue, and what its passes know. No value of these types is made.

use crate::bell::Bell;
use crossbeam_queue::protocol::{Join, Lesson, Outcome, Protocol, Split};
use std::collections::LinkedList;

/// The number of a pass and the blocks for which it rang. The first pass has the number of passes that there are, and each other has 0.
pub struct Ringing {
    pub number: u64,
    pub passes: u64,
    pub rung: LinkedList<u32>,
}

/// What a pass knows. It is not live once another pass has taken it in. `joined` has what those said of themselves that it took in.
pub struct View {
    pub live: bool,
    pub own: Ringing,
    pub took: LinkedList<Bell>,
    pub joined: LinkedList<Ringing>,
}

pub struct Numbering;

impl Protocol<Bell, View> for Numbering {
    ghost use Rattle.pg_bells.specs.Rule.{InOrder, newcomer};

    ghost holds = { InOrder };

    ghost first = { newcomer 0 1 };
}

/// How the first pass is split, and how one pass takes in another.
pub struct Cut;

impl Split<View> for Cut {
    ghost use Rattle.pg_bells.specs.Rule.{counted, newcomer};

    ghost left = { counted };

    ghost right = { λ v. newcomer v.own.passes 0 };
}

impl Join<View> for Cut {
    ghost use Rattle.pg_bells.specs.Rule as rule;

    ghost both = { rule.joined };

    ghost spent = { rule.spent };
}

/// A bell is rung.
pub struct Ring;

impl Outcome<Bell, View> for Ring {
    ghost use Rattle.std.specs.Prelude.{◌≡◌};
    ghost use Rattle.pg_bells.specs.Rule.{rang};

    ghost then = { λ v b w. w ≡ rang v b.block };
}

impl Lesson<Bell, View> for Ring {
    ghost use Rattle.pg_bells.specs.Rule.{Shows};

    ghost fact = { Shows };
}

/// A bell is answered.
pub struct Answer;

impl Outcome<Bell, View> for Answer {
    ghost use Rattle.std.specs.Prelude.{◌≡◌};
    ghost use Rattle.pg_bells.specs.Histories.{Rises};
    ghost use Rattle.pg_bells.specs.Rule as rule;

    ghost then = { λ v b w. (w ≡ rule.took v b) × Rises v.took b };
}

impl Lesson<Bell, View> for Answer {
    ghost use Rattle.pg_bells.specs.Rule.{Shows};

    ghost fact = { Shows };
}

/// What is left is counted.
pub struct Count;

impl Lesson<Bell, View> for Count {
    ghost use Rattle.pg_bells.specs.Rule.{Closes};

    ghost fact = { Closes };
}
