ghost use Rattle.std.specs.Prelude.{◌<◌, ◌^◌};
ghost use Rattle.crossbeam_queue.specs.Passes.{ruled_capacity};

use crate::bell::{Bell, Full};
use crate::dealing::deal;
use crate::gathering::gather;
use crate::pass::{AnswerPass, RingPass};
use crate::view::{Answer, Count, Numbering, Ring, View};
use crossbeam_queue::RuledArrayQueue;
use std::alloc::{AllocError, Global};
use std::sync::Wait;

/// Bells that core threads ring and workers answer.
#[derive(Drop)]
pub struct Bells {
    pub(crate) queue: RuledArrayQueue<Bell, View, Numbering>,
    pub(crate) ringers: u32,
    pub(crate) answerers: u32,
    ghost small: { ruled_capacity queue < 2 ^ 32 },
}

impl Bells {
    ghost use Rattle.std.specs.Prelude.{◌≡◌, ◌+◌, ◌∷◌, [], ◌++◌, length, ◌≤◌, All, vec_len, IfOk, MatchResult, MatchOption};
    ghost use Rattle.pg_bells.specs.Histories.{Rises};
    ghost use Rattle.pg_bells.specs.Closing.{all_taken, WasRung, NoneTwice, AreLeft};
    ghost use Rattle.pg_bells.specs.Passes.{room_of, ringers_of, answerers_of, AreByCore, core_of, rung_by, taken_by, IsRingPassOf, IsAnswerPassOf, WasFull, WasEmpty};

    /// Bells of which `room` can wait, and their passes. The ring passes are those of cores 0, 1, .. in this order.
    pub fn make(
        alloc: Global,
        room: u32,
        ringers: u32,
        answerers: u32,
    ) -> Result<(Bells, Vec<RingPass>, Vec<AnswerPass>), AllocError>
        requires room { 0 < room }
        requires ringers { ringers ≤ 1024 }
        ensures bells { IfOk result (λ r. (room_of r.0 ≡ room) × (ringers_of r.0 ≡ ringers) × (answerers_of r.0 ≡ answerers)) }
        ensures counts { IfOk result (λ r. (vec_len r.1 ≡ ringers) × (vec_len r.2 ≡ answerers)) }
        ensures ring_passes { IfOk result (λ r. All (IsRingPassOf r.0) r.1.items × AreByCore r.1.items) }
        ensures silent { IfOk result (λ r. All (λ p. rung_by p ≡ []) r.1.items) }
        ensures answer_passes { IfOk result (λ r. All (IsAnswerPassOf r.0) r.2.items) }
        ensures idle { IfOk result (λ r. All (λ p. taken_by p ≡ []) r.2.items) }
    {
        let (queue, first) = RuledArrayQueue::ruled(alloc, room as usize)?;
        let (rings, answers) = deal(alloc, &queue, first, ringers, answerers)?;
        let bells = Bells {
            queue,
            ringers,
            answerers,
        };
        Ok((bells, rings, answers))
    }

    /// Rings for a block. `Full` comes only where as many bells as there is room for waited at a moment of the call; it uses no serial.
    pub fn ring<R: Wait>(&self, rt: &R, pass: &mut RingPass, block: u32) -> Result<(), Full>
        requires pass { IsRingPassOf self.now pass.old }
        requires serials { length (rung_by pass.old) < 4294967295 }
        ensures pass { IsRingPassOf self.now pass.new × (core_of pass.new ≡ core_of pass.old) }
        ensures rung { MatchResult result (λ _. rung_by pass.new ≡ rung_by pass.old ++ block ∷ []) (λ _. (rung_by pass.new ≡ rung_by pass.old) × WasFull self.now pass.old) }
        ensures count { length (rung_by pass.new) ≤ length (rung_by pass.old) + 1 }
    {
        let bell = Bell {
            core: pass.core,
            serial: pass.count,
            block,
        };
        match self.queue.push_as::<Ring, R>(rt, &mut pass.pass, bell) {
            Ok(()) => {
                pass.count += 1;
                Ok(())
            }
            Err(_) => Err(Full),
        }
    }

    /// Takes the bell that has waited longest. `None` comes only where no bell waited at a moment of the call.
    pub fn answer<R: Wait>(&self, rt: &R, pass: &mut AnswerPass) -> Option<Bell>
        requires { IsAnswerPassOf self.now pass.old }
        ensures pass { IsAnswerPassOf self.now pass.new }
        ensures taken { MatchOption result ((taken_by pass.new ≡ taken_by pass.old) × WasEmpty pass.old) (λ bell. taken_by pass.new ≡ taken_by pass.old ++ bell ∷ []) }
        ensures rising { MatchOption result (Unit {0}) (λ bell. Rises (taken_by pass.old) bell) }
    {
        self.queue.pop_as::<Answer, R>(rt, &mut pass.pass)
    }

    /// How many bells were rung and not taken. The passes are all those that were made with these bells, in any order.
    pub fn close<R: Wait>(self, rt: &R, rings: Vec<RingPass>, answers: Vec<AnswerPass>) -> u32
        requires rings { (vec_len rings ≡ ringers_of self) × All (IsRingPassOf self) rings.items }
        requires answers { (vec_len answers ≡ answerers_of self) × All (IsAnswerPassOf self) answers.items }
        ensures rung { All (WasRung rings.items) (all_taken answers.items) }
        ensures once { NoneTwice (all_taken answers.items) }
        ensures left { AreLeft result rings.items answers.items }
    {
        match gather(&self.queue, rings, answers) {
            Some(mut closer) => self.queue.len_as::<Count, R>(rt, &mut closer) as u32,
            None => 0,
        }
    }
}
