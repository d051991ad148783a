//! How the passes come back: one of them takes in all others.
ghost use Rattle.std.specs.Prelude.{◌≡◌, ◌++◌, [], true, All, MatchOption};
ghost use Rattle.crossbeam_queue.specs.Passes.{view, IsPassOf};
ghost use Rattle.pg_bells.specs.Rule.{all_ringing};
ghost use Rattle.pg_bells.specs.Closing.{all_taken};
ghost use Rattle.pg_bells.specs.Gathering.{ring_view, answer_view, told_by_rings, told_by_answers};

use crate::bell::Bell;
use crate::pass::{AnswerPass, RingPass};
use crate::view::{Cut, Numbering, View};
use crossbeam_queue::{Pass, RuledArrayQueue};

type Queue = RuledArrayQueue<Bell, View, Numbering>;

fn take_in_rings(
    queue: &Queue,
    mut closer: Pass<Bell, View>,
    mut rings: Vec<RingPass>,
) -> Pass<Bell, View>
    requires closer { IsPassOf queue.now closer × ((view closer).live ≡ true) }
    requires rings { All (λ p. IsPassOf queue.now p.pass × ((ring_view p).live ≡ true) × ((ring_view p).took ≡ [])) rings.items }
    ensures closer { IsPassOf queue.now result × ((view result).live ≡ true) × ((view result).own ≡ (view closer).own) }
    ensures joined { (view result).joined ≡ told_by_rings rings.items ++ (view closer).joined }
    ensures took { (view result).took ≡ (view closer).took }
{
    while let Some(
        RingPass {
            core: _,
            count: _,
            pass,
        },
    ) = rings.pop()
    {
        queue.absorb::<Cut>(&mut closer, pass);
    }
    closer
}

fn take_in_answers(
    queue: &Queue,
    mut closer: Pass<Bell, View>,
    mut answers: Vec<AnswerPass>,
) -> Pass<Bell, View>
    requires closer { IsPassOf queue.now closer × ((view closer).live ≡ true) }
    requires answers { All (λ p. IsPassOf queue.now p.pass × ((answer_view p).live ≡ true)) answers.items }
    ensures closer { IsPassOf queue.now result × ((view result).live ≡ true) × ((view result).own ≡ (view closer).own) }
    ensures joined { (view result).joined ≡ told_by_answers answers.items ++ (view closer).joined }
    ensures took { (view result).took ≡ all_taken answers.items ++ (view closer).took }
{
    while let Some(AnswerPass { pass }) = answers.pop() {
        queue.absorb::<Cut>(&mut closer, pass);
    }
    closer
}

/// A pass that has taken in all others; none where there is none.
pub(crate) fn gather(
    queue: &Queue,
    mut rings: Vec<RingPass>,
    mut answers: Vec<AnswerPass>,
) -> Option<Pass<Bell, View>>
    requires rings { All (λ p. IsPassOf queue.now p.pass × ((ring_view p).live ≡ true) × ((ring_view p).joined ≡ []) × ((ring_view p).took ≡ [])) rings.items }
    requires answers { All (λ p. IsPassOf queue.now p.pass × ((answer_view p).live ≡ true) × ((answer_view p).joined ≡ [])) answers.items }
    ensures none { MatchOption result ((rings.items ≡ []) × (answers.items ≡ [])) (λ closer. IsPassOf queue.now closer × ((view closer).live ≡ true)) }
    ensures told { MatchOption result (Unit {0}) (λ closer. all_ringing (view closer) ≡ told_by_answers answers.items ++ told_by_rings rings.items) }
    ensures took { MatchOption result (Unit {0}) (λ closer. (view closer).took ≡ all_taken answers.items) }
{
    match rings.pop() {
        Some(
            RingPass {
                core: _,
                count: _,
                pass,
            },
        ) => {
            let closer = take_in_rings(queue, pass, rings);
            Some(take_in_answers(queue, closer, answers))
        }
        None => match answers.pop() {
            Some(AnswerPass { pass }) => Some(take_in_answers(queue, pass, answers)),
            None => None,
        },
    }
}
