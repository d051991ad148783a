//! How the passes are made. The first pass of the queue is split for each other, and is handed out with them.
ghost use Rattle.std.specs.Prelude.{◌≡◌, ◌+◌, ◌<◌, [], All, vec_len, IfOk};
ghost use Rattle.crossbeam_queue.specs.Passes.{view, IsPassOf};
ghost use Rattle.pg_bells.specs.Rule as rule;
ghost use Rattle.pg_bells.specs.Dealing.{AreNewRingers, AreNewAnswerers};
ghost use Rattle.pg_bells.specs.Passes.{IsRinger, IsAnswerer, AreByCore, rung_by, taken_by};

use crate::bell::Bell;
use crate::pass::{AnswerPass, RingPass};
use crate::view::{Cut, Numbering, View};
use crossbeam_queue::{Pass, RuledArrayQueue};
use std::alloc::{AllocError, Global};

type Queue = RuledArrayQueue<Bell, View, Numbering>;

/// The ring passes of all cores but core 0, whose pass is the first.
fn later_ring_passes(
    alloc: Global,
    queue: &Queue,
    first: &mut Pass<Bell, View>,
    ringers: u32,
) -> Result<Vec<RingPass>, AllocError>
    requires some { 0 < ringers }
    requires first { IsPassOf queue.now first.old × (view first.old ≡ rule.newcomer 0 1) }
    ensures first { IfOk result (λ _. IsPassOf queue.now first.new × (view first.new ≡ rule.newcomer 0 ringers)) }
    ensures count { IfOk result (λ passes. vec_len passes + 1 ≡ ringers) }
    ensures queue { IfOk result (λ passes. All (λ p. IsPassOf queue.now p.pass) passes.items) }
    ensures each { IfOk result (λ passes. AreNewRingers passes.items) }
{
    let mut passes = Vec::new(alloc);
    for core in 1..ringers {
        let pass = queue.another::<Cut>(first);
        passes.push(RingPass {
            core,
            count: 0,
            pass,
        })?;
    }
    Ok(passes)
}

/// Answer passes beside the first pass.
fn later_answer_passes(
    alloc: Global,
    queue: &Queue,
    first: &mut Pass<Bell, View>,
    answerers: u32,
) -> Result<Vec<AnswerPass>, AllocError>
    requires some { 0 < (view first.old).own.passes }
    requires first { IsPassOf queue.now first.old × (view first.old ≡ rule.newcomer 0 (view first.old).own.passes) }
    ensures first { IfOk result (λ _. IsPassOf queue.now first.new × (view first.new ≡ rule.newcomer 0 ((view first.old).own.passes + answerers))) }
    ensures count { IfOk result (λ passes. vec_len passes ≡ answerers) }
    ensures queue { IfOk result (λ passes. All (λ p. IsPassOf queue.now p.pass) passes.items) }
    ensures each { IfOk result (λ passes. AreNewAnswerers (view first.old).own.passes passes.items) }
{
    let mut passes = Vec::new(alloc);
    for _ in 0..answerers {
        let pass = queue.another::<Cut>(first);
        passes.push(AnswerPass { pass })?;
    }
    Ok(passes)
}

/// All passes, where there is a ring pass: the first pass is that of core 0.
fn deal_with_ringers(
    alloc: Global,
    queue: &Queue,
    mut first: Pass<Bell, View>,
    ringers: u32,
    answerers: u32,
) -> Result<(Vec<RingPass>, Vec<AnswerPass>), AllocError>
    requires some { 0 < ringers }
    requires first { IsPassOf queue.now first × (view first ≡ rule.newcomer 0 1) }
    ensures counts { IfOk result (λ r. (vec_len r.0 ≡ ringers) × (vec_len r.1 ≡ answerers)) }
    ensures ringers { IfOk result (λ r. All (λ p. IsPassOf queue.now p.pass × IsRinger (ringers + answerers) p.core p.count (view p.pass)) r.0.items) }
    ensures cores { IfOk result (λ r. AreByCore r.0.items) }
    ensures silent { IfOk result (λ r. All (λ p. rung_by p ≡ []) r.0.items) }
    ensures answerers { IfOk result (λ r. All (λ p. IsPassOf queue.now p.pass × IsAnswerer (ringers + answerers) (view p.pass)) r.1.items) }
    ensures idle { IfOk result (λ r. All (λ p. taken_by p ≡ []) r.1.items) }
{
    let mut rings = later_ring_passes(alloc, queue, &mut first, ringers)?;
    let answers = later_answer_passes(alloc, queue, &mut first, answerers)?;
    rings.insert(
        0,
        RingPass {
            core: 0,
            count: 0,
            pass: first,
        },
    )?;
    Ok((rings, answers))
}

/// All passes, where there is no ring pass: the first pass is an answer pass.
fn deal_without_ringers(
    alloc: Global,
    queue: &Queue,
    mut first: Pass<Bell, View>,
    answerers: u32,
) -> Result<Vec<AnswerPass>, AllocError>
    requires some { 0 < answerers }
    requires first { IsPassOf queue.now first × (view first ≡ rule.newcomer 0 1) }
    ensures count { IfOk result (λ passes. vec_len passes ≡ answerers) }
    ensures answerers { IfOk result (λ passes. All (λ p. IsPassOf queue.now p.pass × IsAnswerer answerers (view p.pass)) passes.items) }
    ensures idle { IfOk result (λ passes. All (λ p. taken_by p ≡ []) passes.items) }
{
    let mut answers = later_answer_passes(alloc, queue, &mut first, answerers - 1)?;
    answers.push(AnswerPass { pass: first })?;
    Ok(answers)
}

/// All passes.
pub(crate) fn deal(
    alloc: Global,
    queue: &Queue,
    first: Pass<Bell, View>,
    ringers: u32,
    answerers: u32,
) -> Result<(Vec<RingPass>, Vec<AnswerPass>), AllocError>
    requires { IsPassOf queue.now first × (view first ≡ rule.newcomer 0 1) }
    ensures counts { IfOk result (λ r. (vec_len r.0 ≡ ringers) × (vec_len r.1 ≡ answerers)) }
    ensures ringers { IfOk result (λ r. All (λ p. IsPassOf queue.now p.pass × IsRinger (ringers + answerers) p.core p.count (view p.pass)) r.0.items) }
    ensures cores { IfOk result (λ r. AreByCore r.0.items) }
    ensures silent { IfOk result (λ r. All (λ p. rung_by p ≡ []) r.0.items) }
    ensures answerers { IfOk result (λ r. All (λ p. IsPassOf queue.now p.pass × IsAnswerer (ringers + answerers) (view p.pass)) r.1.items) }
    ensures idle { IfOk result (λ r. All (λ p. taken_by p ≡ []) r.1.items) }
{
    match (ringers, answerers) {
        (0, 0) => Ok((Vec::new(alloc), Vec::new(alloc))),
        (0, _) => {
            let answers = deal_without_ringers(alloc, queue, first, answerers)?;
            Ok((Vec::new(alloc), answers))
        }
        _ => deal_with_ringers(alloc, queue, first, ringers, answerers),
    }
}
