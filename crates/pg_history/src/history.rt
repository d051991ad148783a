ghost use Rattle.std.specs.Prelude.{◌≡◌, ◌++◌, ◌<◌, ◌≤◌, IfOk, length, codes};
ghost use Rattle.std.specs.Fmt.{decimal};
ghost use Rattle.pg_history.specs.HistoryText as text;

use crate::line::Line;
use pg_perm::{Event, Step, Steps, Vocabulary};
use std::alloc::{AllocError, Global};

fn is_entry(step: Step) -> bool
    ensures { result ≡ text.is_entry step }
{
    matches!(step, Step::Txn(..) | Step::Stale(_))
}

fn block_line(block: u32) -> Line
    ensures { result ≡ text.block_line block }
{
    let mut line = Line::new();
    line.number(u64::from(block));
    line.text(b"block ");
    line
}

/// Puts what an entry is, its number and its core before the rest of its line.
#[inline]
fn put_entry(line: &mut Line, kind: &[u8], number: usize, core: u32)
    requires room { length line.old ≤ 30 }
    requires short { length kind.now ≤ 6 }
    ensures { line.new ≡ kind.now ++ decimal number ++ codes " c" ++ decimal core ++ line.old }
{
    line.number(u64::from(core));
    line.text(b" c");
    line.number(number as u64);
    line.text(kind);
}

fn txn_line(number: usize, core: u32, event: Event) -> Line
    ensures { result ≡ text.txn_line number core event }
{
    let mut line = Line::new();
    line.text(event.word().as_bytes());
    line.text(b" ");
    put_entry(&mut line, b"txn ", number, core);
    line
}

fn stale_line(number: usize, core: u32) -> Line
    ensures { result ≡ text.stale_line number core }
{
    let mut line = Line::new();
    put_entry(&mut line, b"stale ", number, core);
    line
}

fn load_line(number: usize, core: u32, value: u32) -> Line
    ensures { result ≡ text.load_line number core value }
{
    let mut line = Line::new();
    line.number(u64::from(value));
    line.text(b" load ");
    put_entry(&mut line, b"acc ", number, core);
    line
}

fn store_line(number: usize, core: u32, value: u32) -> Line
    ensures { result ≡ text.store_line number core value }
{
    let mut line = Line::new();
    line.number(u64::from(value));
    line.text(b" store ");
    put_entry(&mut line, b"acc ", number, core);
    line
}

/// The line of a step, where `number` transactions and stale evicts were made, this step included.
fn step_line(number: usize, step: Step) -> Line
    ensures { result ≡ text.step_line number step }
{
    match step {
        Step::Txn(core, event) => txn_line(number, core, event),
        Step::Stale(core) => stale_line(number, core),
        Step::Load(core, value) => load_line(number, core, value),
        Step::Store(core, value) => store_line(number, core, value),
    }
}

/// Puts the text of a block's history last: the line `block B`, and a line for each step. docs/MODEL.md has the form of the lines.
pub fn write_history(buffer: &mut Vec<u8>, block: u32, steps: &Steps) -> Result<(), AllocError>
    ensures { IfOk result (λ _. buffer.new.items ≡ buffer.old.items ++ text.block_text block steps.now) }
{
    buffer.extend_from_slice(block_line(block).bytes())?;
    let mut entries = 0;
    let mut left = steps.as_slice();
    while let Some((step, rest)) = left.split_first() {
        if is_entry(*step) {
            entries += 1;
        }
        buffer.extend_from_slice(step_line(entries, *step).bytes())?;
        left = rest;
    }
    Ok(())
}

/// The text of a block's history.
pub fn history_text(alloc: Global, block: u32, steps: &Steps) -> Result<Vec<u8>, AllocError>
    ensures { IfOk result (λ bytes. bytes.items ≡ text.block_text block steps.now) }
{
    let mut text = Vec::new(alloc);
    write_history(&mut text, block, steps)?;
    Ok(text)
}
