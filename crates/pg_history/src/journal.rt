ghost use Rattle.std.specs.Prelude.{◌≡◌, ◌++◌, ◌≤◌, IfOk, length};
ghost use Rattle.std.specs.Fmt.{decimal};
ghost use Rattle.pg_history.specs.JournalText as text;

use crate::line::Line;
use pg_messages::WorldEvent;
use std::alloc::{AllocError, Global};

/// A text and the number after it.
fn numbered(text: &[u8], number: u32) -> Line
    requires { length text.now ≤ 8 }
    ensures { result ≡ text.now ++ decimal number }
{
    let mut line = Line::empty();
    line.number(u64::from(number));
    line.text(text);
    line
}

fn journal_head(block: u32) -> Line
    ensures { result ≡ text.journal_head block }
{
    numbered(b"journal ", block)
}

fn event_text(event: WorldEvent) -> Line
    ensures { result ≡ text.event_text event }
{
    match event {
        WorldEvent::Issue(core) => numbered(b" I", core),
        WorldEvent::Request(core) => numbered(b" Q", core),
        WorldEvent::Ordered(core) => numbered(b" O", core),
        WorldEvent::Reply(place) => numbered(b" R", place),
    }
}

/// Puts the text of a block's journal last: one line, `journal B` and a word for each event. The number beside an event is not written.
pub fn write_journal(
    buffer: &mut Vec<u8>,
    block: u32,
    journal: &[(u32, WorldEvent)],
) -> Result<(), AllocError>
    ensures { IfOk result (λ _. buffer.new.items ≡ buffer.old.items ++ text.journal_text block journal.now) }
{
    buffer.extend_from_slice(journal_head(block).bytes())?;
    let mut left = journal;
    while let Some((entry, rest)) = left.split_first() {
        buffer.extend_from_slice(event_text(entry.1).bytes())?;
        left = rest;
    }
    buffer.push(b'\n')?;
    Ok(())
}

/// The text of a block's journal.
pub fn journal_text(
    alloc: Global,
    block: u32,
    journal: &[(u32, WorldEvent)],
) -> Result<Vec<u8>, AllocError>
    ensures { IfOk result (λ bytes. bytes.items ≡ text.journal_text block journal.now) }
{
    let mut text = Vec::new(alloc);
    write_journal(&mut text, block, journal)?;
    Ok(text)
}
