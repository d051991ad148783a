//! Turns at a diary, whose entries are its lines.

ghost use Rattle.std.specs.Prelude.{◌≡◌, ◌<◌, ◌≤◌, ◌⊎◌, ◌++◌, ◌∷◌, [], ◌^◌, length, false, IfOk};
ghost use Rattle.pg_turn.specs.Passes.{IsOf, AreIdle, pass_count, is_holding};

use super::*;
use std::alloc::{AllocError, Global};
use std::process::Abort;
use std::sync::Wait;
use std::test::Fail;
use std::thread::{Threads, join};

/// Who wrote a line, and what.
#[derive(Clone, Copy, Debug, PartialEq)]
struct Line {
    by: u32,
    text: u32,
}

/// A diary of this year.
#[derive(Drop)]
struct Diary {
    year: u32,
    lines: Vec<Line>,
    ghost few: { length lines.items < 2 ^ 40 },
}

impl Kept for Diary {
    type Root = u32;

    type Entry = Line;

    ghost root = { λ d. d.year };

    ghost entries = { λ d. d.lines.items };

    ghost maker = { λ e. e.by };

    fn count(&self) -> u64 {
        self.lines.len() as u64
    }
}

impl Diary {
    fn new(alloc: Global, year: u32, room: usize) -> Result<Diary, AllocError>
        ensures { IfOk result (λ d. (d.year ≡ year) × (d.lines.items ≡ [])) }
    {
        Ok(Diary {
            year,
            lines: Vec::with_capacity(alloc, room)?,
        })
    }

    /// One line more, if there is room for it.
    fn write(&mut self, by: u32, text: u32)
        ensures year { self.new.year ≡ self.old.year }
        ensures lines { (self.new.lines.items ≡ self.old.lines.items) ⊎ (self.new.lines.items ≡ self.old.lines.items ++ record { by = by; text = text } ∷ []) }
    {
        if self.lines.len() < 1 << 20 {
            let _ = self.lines.push(Line { by, text });
        }
    }
}

fn write<R: Wait>(rt: &R, turn: &Turn<Diary>, mut pass: Pass<Diary>, text: u32) -> Pass<Diary>
    requires { IsOf turn.now pass × (is_holding pass ≡ false) }
    ensures { IsOf turn.now result × (is_holding result ≡ false) × (result.number ≡ pass.number) }
{
    let mut diary = turn.take(rt, &mut pass);
    diary.write(pass.number(), text);
    turn.give(&mut pass, diary);
    pass
}

/// A turn at an empty diary, with its two passes.
fn two_passes(
    rt: &impl Abort,
    alloc: Global,
    room: usize,
) -> Result<(Turn<Diary>, Pass<Diary>, Pass<Diary>), Fail>
    ensures turn { IfOk result (λ made. pass_count made.0 ≡ 2) }
    ensures first { IfOk result (λ made. IsOf made.0 made.1 × (made.1.number ≡ 0) × (is_holding made.1 ≡ false)) }
    ensures second { IfOk result (λ made. IsOf made.0 made.2 × (made.2.number ≡ 1) × (is_holding made.2 ≡ false)) }
{
    let diary = Diary::new(alloc, 1984, room)?;
    let Ok((turn, mut passes)) = Turn::make(alloc, diary, 2) else {
        return Err(Fail::from("memory"));
    };
    let Some(second) = passes.pop() else {
        unreachable!()
    };
    let Some(first) = passes.pop() else {
        unreachable!()
    };
    Ok((turn, first, second))
}

/// The diary, at the end.
fn close(
    alloc: Global,
    turn: Turn<Diary>,
    first: Pass<Diary>,
    second: Pass<Diary>,
) -> Result<Diary, AllocError>
    requires turn { pass_count turn ≡ 2 }
    requires first { IsOf turn first × (first.number ≡ 0) × (is_holding first ≡ false) }
    requires second { IsOf turn second × (second.number ≡ 1) × (is_holding second ≡ false) }
{
    let mut passes = Vec::with_capacity(alloc, 2)?;
    passes.push_reserved(first);
    passes.push_reserved(second);
    Ok(turn.close(passes))
}

#[test]
fn passes_take_turns(rt: HostRuntime) -> Result<(), Fail> {
    let alloc = rt.alloc();
    let (turn, mut first, mut second) = two_passes(&rt, alloc, 2)?;
    assert!(rt; first.number() == 0 && second.number() == 1);
    let Some(mut diary) = turn.try_take(&mut first) else {
        return Err(Fail::from("nobody holds it"));
    };
    assert!(rt; turn.try_take(&mut second).is_none());
    diary.write(first.number(), 5);
    turn.give(&mut first, diary);
    let Some(mut diary) = turn.try_take(&mut second) else {
        return Err(Fail::from("it was given back"));
    };
    assert!(rt; turn.try_take(&mut first).is_none());
    diary.write(second.number(), 7);
    turn.give(&mut second, diary);
    let diary = close(alloc, turn, first, second)?;
    assert_eq!(rt;
        diary.lines.as_slice(),
        [Line { by: 0, text: 5 }, Line { by: 1, text: 7 }].as_slice()
    );
    Ok(())
}

/// Writes so many lines, each in a turn of its own.
fn write_often<R: Wait>(
    rt: &R,
    turn: &Turn<Diary>,
    mut pass: Pass<Diary>,
    lines: u32,
) -> Pass<Diary>
    requires { IsOf turn.now pass × (is_holding pass ≡ false) }
    ensures { IsOf turn.now result × (is_holding result ≡ false) × (result.number ≡ pass.number) }
{
    for text in 0..lines {
        pass = write(rt, turn, pass, text);
    }
    pass
}

/// Two threads write as many lines each.
fn write_both<R: Threads + Wait + Abort + Sync>(
    rt: &R,
    alloc: Global,
    lines: u32,
) -> Result<Diary, Fail> {
    let (turn, first, second) = two_passes(rt, alloc, 2 * lines as usize)?;
    let (first, second) = join(
        rt,
        || -> Pass<Diary>
            requires { IsOf turn first × (is_holding first ≡ false) × (first.number ≡ 0) }
            ensures { IsOf turn result × (is_holding result ≡ false) × (result.number ≡ 0) }
        { write_often(rt, &turn, first, lines) },
        || -> Pass<Diary>
            requires { IsOf turn second × (is_holding second ≡ false) × (second.number ≡ 1) }
            ensures { IsOf turn result × (is_holding result ≡ false) × (result.number ≡ 1) }
        { write_often(rt, &turn, second, lines) },
    );
    Ok(close(alloc, turn, first, second)?)
}

#[test]
fn two_threads_lose_no_line(rt: HostRuntime) -> Result<(), Fail> {
    let diary = write_both(&rt, rt.alloc(), 1000)?;
    assert_eq!(rt; diary.lines.len(), 2000);
    let mut next = [0, 0];
    for line in &diary.lines {
        let by = line.by as usize;
        assert!(rt; by < 2);
        assert_eq!(rt; line.text, next[by]);
        assert!(rt; next[by] < 1000);
        next[by] += 1;
    }
    assert_eq!(rt; next, [1000, 1000]);
    Ok(())
}
