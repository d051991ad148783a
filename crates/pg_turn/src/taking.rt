ghost use Rattle.std.specs.Prelude.{◌≡◌, ◌<◌, ◌≤◌, ◌+◌, ◌^◌, length, drop, true, false, IfSome, IfNone};
ghost use Rattle.pg_turn.specs.Entries.{StartsWith, Names};
ghost use Rattle.pg_turn.specs.Passes.{IsOf, IsMissed, Takes, Gives, first_value, seen_by, miss_count, is_holding};

use crate::kept::Kept;
use crate::order::{Grab, Release};
use crate::turn::{Pass, Turn};
use std::sync::Wait;
use std::thread::yield_now;

impl<T: Kept> Turn<T> {
    /// Hands out the value, or nothing where another pass holds it at that moment. It never waits.
    pub fn try_take(&self, pass: &mut Pass<T>) -> Option<T>
        requires pass { IsOf self.now pass.old }
        requires idle { is_holding pass.old ≡ false }
        ensures pass { IsOf self.now pass.new }
        ensures taken { IfSome result (λ value. Takes T.entries T.maker pass.old value pass.new) }
        ensures root { IfSome result (λ value. T.root value ≡ T.root (first_value self.now)) }
        ensures count { IfSome result (λ _. miss_count pass.new ≡ miss_count pass.old) }
        ensures missed { IfNone result (IsMissed pass.old pass.new) }
        ensures missed_once { IfNone result (miss_count pass.new ≡ miss_count pass.old + 1) }
    {
        let found = self.table.shared.fetch_or::<Grab<T>>(&mut pass.seat, 0, 1);
        if found % 2 == 1 {
            return None;
        }
        let Some(value) = self.table.shared.exchange(&mut pass.seat, 0, None) else {
            unreachable!()
        };
        Some(value)
    }

    /// Waits until no other pass holds the value, and hands it out.
    pub fn take<R: Wait>(&self, rt: &R, pass: &mut Pass<T>) -> T
        requires pass { IsOf self.now pass.old }
        requires idle { is_holding pass.old ≡ false }
        ensures pass { IsOf self.now pass.new }
        ensures taken { Takes T.entries T.maker pass.old result pass.new }
        ensures root { T.root result ≡ T.root (first_value self.now) }
        ensures count { miss_count pass.old ≤ miss_count pass.new }
    {
        for _ in rt.forever() {
            if self.table.shared.peek(0) % 2 == 0
                && let Some(value) = self.try_take(pass)
            {
                return value;
            }
            yield_now();
        }
        unreachable!()
    }

    /// Gives the value back, with the entries that the pass has added.
    pub fn give(&self, pass: &mut Pass<T>, value: T)
        requires pass { IsOf self.now pass.old }
        requires holding { is_holding pass.old ≡ true }
        requires root { T.root value ≡ T.root (first_value self.now) }
        requires begins { StartsWith (T.entries value) (seen_by pass.old) }
        requires own { Names T.maker pass.old.number (drop (length (seen_by pass.old)) (T.entries value)) }
        requires few { length (T.entries value) < 2 ^ 62 }
        ensures pass { IsOf self.now pass.new }
        ensures given { Gives T.entries pass.old value pass.new }
    {
        let word = 2 * value.count();
        let hole = self.table.shared.exchange(&mut pass.seat, 0, Some(value));
        let None = hole else { unreachable!() };
        self.table
            .shared
            .store::<Release<T>>(&mut pass.seat, 0, word);
    }
}
