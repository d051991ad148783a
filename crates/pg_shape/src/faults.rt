ghost use Rattle.std.specs.Prelude.{◌≡◌, ◌≤◌, ℕ, Bool, List, length, None};
ghost use Rattle.pg_perm.specs.declared.draft.Draft.{Draft};
ghost use Rattle.pg_perm.specs.declared.fault.Rule.{Rule};
ghost use Rattle.pg_shape.specs.TextRules.{text_breaks};
ghost use Rattle.pg_shape.specs.CacheRules.{cache_breaks};
ghost use Rattle.pg_shape.specs.DirRules.{dir_breaks};
ghost use Rattle.pg_shape.specs.MessageRules.{message_breaks};
ghost use Rattle.pg_shape.specs.CoreRules.{core_breaks};
ghost use Rattle.pg_shape.specs.TakeRules.{take_breaks};
ghost use Rattle.pg_shape.specs.RowRules.{row_breaks};
ghost use Rattle.pg_shape.specs.FirstFaults as first;

use crate::cache_rules::cache_rule;
use crate::core_rules::core_rule;
use crate::dir_rules::dir_rule;
use crate::message_rules::message_rule;
use crate::row_rules::row_rule;
use crate::take_rules::take_rule;
use crate::text_rules::text_rule;
use pg_perm::{CacheLine, CoreLine, DirLine, Draft, Fault, MsgLine, RowLine, Rule, TakeLine};

/// A line that rules speak of.
trait Judged {
    /// The lines of its kind.
    ghost kin: { Draft → List Self };

    ghost line: { Self → ℕ };

    /// Whether it breaks a rule, as the line of this number of its kind.
    ghost breaks: { Draft → ℕ → Self → Rule → Bool };

    fn line(&self) -> u32
        ensures { result ≡ line self.now };

    /// The first rule that it breaks.
    fn first_rule(&self, draft: &Draft, number: usize) -> Option<Rule>
        requires kin { number ≤ length (kin draft.now) }
        requires caches { length draft.now.caches ≤ 16 }
        requires dirs { length draft.now.dirs ≤ 16 }
        requires messages { length draft.now.messages ≤ 32 }
        ensures { result ≡ first.first_rule (breaks draft.now number self.now) };
}

impl Judged for CacheLine {
    ghost kin = { λ d. d.caches };

    ghost line = { λ x. x.line };

    ghost breaks = { cache_breaks };

    fn line(&self) -> u32 {
        self.line
    }

    fn first_rule(&self, draft: &Draft, number: usize) -> Option<Rule> {
        cache_rule(draft, number as u8, self)
    }
}

impl Judged for DirLine {
    ghost kin = { λ d. d.dirs };

    ghost line = { λ x. x.line };

    ghost breaks = { dir_breaks };

    fn line(&self) -> u32 {
        self.line
    }

    fn first_rule(&self, draft: &Draft, number: usize) -> Option<Rule> {
        dir_rule(draft, number as u8, self)
    }
}

impl Judged for MsgLine {
    ghost kin = { λ d. d.messages };

    ghost line = { λ x. x.line };

    ghost breaks = { message_breaks };

    fn line(&self) -> u32 {
        self.line
    }

    fn first_rule(&self, draft: &Draft, number: usize) -> Option<Rule> {
        message_rule(draft, number, self)
    }
}

impl Judged for CoreLine {
    ghost kin = { λ d. d.cores };

    ghost line = { λ x. x.line };

    ghost breaks = { core_breaks };

    fn line(&self) -> u32 {
        self.line
    }

    fn first_rule(&self, draft: &Draft, number: usize) -> Option<Rule> {
        core_rule(draft, number, self)
    }
}

impl Judged for TakeLine {
    ghost kin = { λ d. d.takes };

    ghost line = { λ x. x.line };

    ghost breaks = { take_breaks };

    fn line(&self) -> u32 {
        self.line
    }

    fn first_rule(&self, draft: &Draft, number: usize) -> Option<Rule> {
        take_rule(draft, number, self)
    }
}

impl Judged for RowLine {
    ghost kin = { λ d. d.rows };

    ghost line = { λ x. x.line };

    ghost breaks = { row_breaks };

    fn line(&self) -> u32 {
        self.line
    }

    fn first_rule(&self, draft: &Draft, number: usize) -> Option<Rule> {
        row_rule(draft, number, self)
    }
}

/// The first fault among lines, which are all of their kind.
fn first_fault_in<L: Judged>(draft: &Draft, lines: &[L]) -> Option<Fault>
    requires kin { lines.now ≡ L.kin draft.now }
    requires caches { length draft.now.caches ≤ 16 }
    requires dirs { length draft.now.dirs ≤ 16 }
    requires messages { length draft.now.messages ≤ 32 }
    ensures { result ≡ first.first_fault_in L.line (L.breaks draft.now) 0 lines.now }
{
    let mut number = 0;
    let mut left = lines;
    while let Some((line, rest)) = left.split_first() {
        if let Some(rule) = line.first_rule(draft, number) {
            return Some(Fault {
                line: line.line(),
                rule,
            });
        }
        number += 1;
        left = rest;
    }
    None
}

fn text_fault(draft: &Draft) -> Option<Fault>
    ensures { result ≡ first.fault_or draft.now.line (first.first_rule (text_breaks draft.now)) None }
{
    let rule = text_rule(draft)?;
    Some(Fault {
        line: draft.line,
        rule,
    })
}

/// The first fault of the shape.
pub fn shape_fault(draft: &Draft) -> Option<Fault>
    requires caches { length draft.now.caches ≤ 16 }
    requires dirs { length draft.now.dirs ≤ 16 }
    requires messages { length draft.now.messages ≤ 32 }
    ensures { result ≡ first.shape_fault draft.now }
{
    text_fault(draft)
        .or_else(|| first_fault_in(draft, draft.caches.as_slice()))
        .or_else(|| first_fault_in(draft, draft.dirs.as_slice()))
        .or_else(|| first_fault_in(draft, draft.messages.as_slice()))
        .or_else(|| first_fault_in(draft, draft.cores.as_slice()))
        .or_else(|| first_fault_in(draft, draft.takes.as_slice()))
        .or_else(|| first_fault_in(draft, draft.rows.as_slice()))
}
