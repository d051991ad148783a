ghost use Rattle.std.specs.Prelude.{◌≡◌, ◌≤◌, ◌+◌, [], length, All, IfSome, OnSome, vec_len};
ghost use Rattle.pg_bells.specs.Passes.{IsRingPassOf, IsAnswerPassOf, rung_by};

use super::*;
use std::process::Abort;
use std::sync::Wait;
use std::test::*;
use std::thread;

fn bell(core: u32, serial: u32, block: u32) -> Option<Bell> {
    Some(Bell {
        core,
        serial,
        block,
    })
}

#[test]
fn one_bell_at_a_time(rt: HostRuntime) -> Result<(), Fail> {
    let (bells, mut rings, mut answers) = Bells::make(rt.alloc(), 1, 1, 1)?;
    let ring = &mut rings[0];
    assert_eq!(rt; bells.ring(&rt, ring, 3), Ok(()));
    assert_eq!(rt; bells.ring(&rt, ring, 4), Err(Full));
    let answer = &mut answers[0];
    assert_eq!(rt; bells.answer(&rt, answer), bell(0, 0, 3));
    assert_eq!(rt; bells.answer(&rt, answer), None);
    assert_eq!(rt; bells.ring(&rt, ring, 4), Ok(()));
    assert_eq!(rt; bells.answer(&rt, answer), bell(0, 1, 4));
    assert_eq!(rt; bells.close(&rt, rings, answers), 0);
    Ok(())
}

fn ring_by_two<R: Wait + Abort>(rt: &R, bells: &Bells, zero: &mut RingPass, one: &mut RingPass)
    requires passes { IsRingPassOf bells.now zero.old × IsRingPassOf bells.now one.old }
    requires few { (length (rung_by zero.old) ≤ 4) × (length (rung_by one.old) ≤ 4) }
    ensures passes { IsRingPassOf bells.now zero.new × IsRingPassOf bells.now one.new }
{
    assert_eq!(rt; bells.ring(rt, zero, 7), Ok(()));
    assert_eq!(rt; bells.ring(rt, one, 8), Ok(()));
    assert_eq!(rt; bells.ring(rt, zero, 9), Ok(()));
    assert_eq!(rt; bells.ring(rt, one, 6), Err(Full));
}

fn answer_by_two<R: Wait + Abort>(
    rt: &R,
    bells: &Bells,
    first: &mut AnswerPass,
    other: &mut AnswerPass,
)
    requires { IsAnswerPassOf bells.now first.old × IsAnswerPassOf bells.now other.old }
    ensures { IsAnswerPassOf bells.now first.new × IsAnswerPassOf bells.now other.new }
{
    assert_eq!(rt; bells.answer(rt, other), bell(0, 0, 7));
    assert_eq!(rt; bells.answer(rt, first), bell(1, 0, 8));
}

fn last_ring_pass(bells: &Bells, rings: &mut Vec<RingPass>) -> Option<RingPass>
    requires { All (IsRingPassOf bells.now) rings.old.items × All (λ p. rung_by p ≡ []) rings.old.items }
    ensures pass { IfSome result (λ p. IsRingPassOf bells.now p × (rung_by p ≡ [])) }
    ensures others { All (IsRingPassOf bells.now) rings.new.items × All (λ p. rung_by p ≡ []) rings.new.items }
    ensures count { OnSome result (vec_len rings.new + 1 ≡ vec_len rings.old) }
{
    rings.pop()
}

fn last_answer_pass(bells: &Bells, answers: &mut Vec<AnswerPass>) -> Option<AnswerPass>
    requires { All (IsAnswerPassOf bells.now) answers.old.items }
    ensures pass { IfSome result (IsAnswerPassOf bells.now) }
    ensures others { All (IsAnswerPassOf bells.now) answers.new.items }
    ensures count { OnSome result (vec_len answers.new + 1 ≡ vec_len answers.old) }
{
    answers.pop()
}

#[test]
fn two_ring_and_two_answer(rt: HostRuntime) -> Result<(), Fail> {
    let (bells, mut rings, mut answers) = Bells::make(rt.alloc(), 3, 2, 2)?;
    let mut one = last_ring_pass(&bells, &mut rings).ok_or("one")?;
    let mut zero = last_ring_pass(&bells, &mut rings).ok_or("zero")?;
    let mut other = last_answer_pass(&bells, &mut answers).ok_or("other")?;
    let mut first = last_answer_pass(&bells, &mut answers).ok_or("first")?;
    ring_by_two(&rt, &bells, &mut zero, &mut one);
    answer_by_two(&rt, &bells, &mut first, &mut other);
    rings.push(one)?;
    rings.push(zero)?;
    answers.push(first)?;
    answers.push(other)?;
    assert_eq!(rt; bells.close(&rt, rings, answers), 1);
    Ok(())
}

#[test]
fn no_passes(rt: HostRuntime) -> Result<(), Fail> {
    let (bells, rings, answers) = Bells::make(rt.alloc(), 1, 0, 0)?;
    assert_eq!(rt; bells.close(&rt, rings, answers), 0);
    let (bells, rings, answers) = Bells::make(rt.alloc(), 1, 0, 3)?;
    assert_eq!(rt; answers.len(), 3);
    assert_eq!(rt; bells.close(&rt, rings, answers), 0);
    Ok(())
}

/// Rings a hundred bells, and says how many of them were accepted.
fn ring_all<R: Wait>(rt: &R, bells: &Bells, mut pass: RingPass) -> (RingPass, u32)
    requires pass { IsRingPassOf bells.now pass }
    requires silent { rung_by pass ≡ [] }
    ensures { IsRingPassOf bells.now result.0 }
{
    let mut rung = 0u32;
    for block in 0..100 {
        if bells.ring(rt, &mut pass, block).is_ok() {
            rung = rung.saturating_add(1);
        }
        thread::yield_now();
    }
    (pass, rung)
}

/// Answers up to fifty bells, and says how many, and whether each serial was the one after the last.
fn answer_some<R: Wait>(rt: &R, bells: &Bells, mut pass: AnswerPass) -> (AnswerPass, u32, bool)
    requires { IsAnswerPassOf bells.now pass }
    ensures { IsAnswerPassOf bells.now result.0 }
{
    let mut taken = 0u32;
    let mut in_order = true;
    for _ in 0..1_000_000 {
        if taken == 50 {
            break;
        }
        match bells.answer(rt, &mut pass) {
            Some(bell) => {
                in_order = in_order && bell.serial == taken && bell.block == taken;
                taken = taken.saturating_add(1);
            }
            None => thread::yield_now(),
        }
    }
    (pass, taken, in_order)
}

#[test]
fn one_thread_rings_and_one_answers(rt: HostRuntime) -> Result<(), Fail> {
    let (made, mut rings, mut answers) = Bells::make(rt.alloc(), 128, 1, 1)?;
    let (Some(ring), Some(answer)) = (rings.pop(), answers.pop()) else {
        return Ok(());
    };
    let bells = &made;
    let ((ring, rung), (answer, taken, in_order)) = thread::join(
        &rt,
        move || -> (RingPass, u32)
            requires { IsRingPassOf bells.now ring × (rung_by ring ≡ []) }
            ensures { IsRingPassOf bells.entry.now result.0 }
        { ring_all(&rt, bells, ring) },
        move || -> (AnswerPass, u32, bool)
            requires { IsAnswerPassOf bells.now answer }
            ensures { IsAnswerPassOf bells.entry.now result.0 }
        { answer_some(&rt, bells, answer) },
    );
    rings.push(ring)?;
    answers.push(answer)?;
    assert_eq!(rt; rung, 100);
    assert!(rt; in_order);
    let left = made.close(&rt, rings, answers);
    assert_eq!(rt; taken.saturating_add(left), 100);
    Ok(())
}
