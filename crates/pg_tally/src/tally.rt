ghost use Rattle.std.specs.Prelude.{◌≡◌, ◌≤◌, ◌-◌, ◌*◌, ◌^◌, ℕ, [], length, count_by};
ghost use Rattle.std.specs.List.{sum_by};
ghost use Rattle.pg_tally.specs.Tallies as tallies;

use pg_messages::{DoneEntry, Finished, WorldEvent};
use pg_perm::Step;

/// How many steps of each kind histories have, how many loads were late and how many events there were, and the sum of the words that loads gave.
#[derive(Clone, Copy, Debug, PartialEq, Eq)]
pub struct Tally {
    pub txns: u64,
    pub stale: u64,
    pub loads: u64,
    /// Loads whose copy was gone when they were completed.
    pub late: u64,
    pub stores: u64,
    pub events: u64,
    pub sum: u64,
}

fn word_loaded(step: Step) -> u32
    ensures { result ≡ tallies.word_loaded step }
{
    match step {
        Step::Load(_, word) => word,
        Step::Txn(..) | Step::Stale(_) | Step::Store(..) => 0,
    }
}

fn sum_of_loads(steps: &[Step]) -> u64
    requires { length steps.now ≤ 4294967295 }
    ensures exact { result ≡ sum_by tallies.word_loaded steps.now }
    ensures low { result ≤ length steps.now * 4294967295 }
{
    let mut sum: u64 = 0;
    for step in steps {
        sum += u64::from(word_loaded(*step));
    }
    sum
}

fn is_late_load(done: &DoneEntry) -> bool
    ensures { result ≡ tallies.is_late_load done.now }
{
    matches!(done.fin, Finished::Load(_)) && done.late
}

fn txns(steps: &[Step]) -> u64
    ensures { result ≡ count_by tallies.is_txn steps.now }
{
    steps
        .iter()
        .filter(|step| matches!(step, Step::Txn(..)))
        .count() as u64
}

fn stale(steps: &[Step]) -> u64
    ensures { result ≡ count_by tallies.is_stale steps.now }
{
    steps
        .iter()
        .filter(|step| matches!(step, Step::Stale(_)))
        .count() as u64
}

fn loads(steps: &[Step]) -> u64
    ensures { result ≡ count_by tallies.is_load steps.now }
{
    steps
        .iter()
        .filter(|step| matches!(step, Step::Load(..)))
        .count() as u64
}

fn stores(steps: &[Step]) -> u64
    ensures { result ≡ count_by tallies.is_store steps.now }
{
    steps
        .iter()
        .filter(|step| matches!(step, Step::Store(..)))
        .count() as u64
}

fn late(done: &[DoneEntry]) -> u64
    ensures { result ≡ count_by tallies.is_late_load done.now }
{
    done.iter().filter(|entry| is_late_load(entry)).count() as u64
}

/// The tally of a block, by the steps of its history, what its cores completed, and its journal.
pub fn tally_of(steps: &[Step], done: &[DoneEntry], journal: &[(u32, WorldEvent)]) -> Tally
    requires { length steps.now ≤ 4294967295 }
    ensures exact { result ≡ tallies.tally_of steps.now done.now journal.now }
    ensures low { (n : ℕ) → length steps.now ≤ n → length done.now ≤ n → length journal.now ≤ n → tallies.IsAtMost (n * 4294967295) result }
{
    Tally {
        txns: txns(steps),
        stale: stale(steps),
        loads: loads(steps),
        late: late(done),
        stores: stores(steps),
        events: journal.len() as u64,
        sum: sum_of_loads(steps),
    }
}

impl Tally {
    /// The tally of nothing.
    pub fn empty() -> Tally
        ensures { result ≡ tallies.tally_of [] [] [] }
    {
        Tally {
            txns: 0,
            stale: 0,
            loads: 0,
            late: 0,
            stores: 0,
            events: 0,
            sum: 0,
        }
    }

    /// This tally and another together.
    pub fn plus(self, other: Tally) -> Tally
        requires first { tallies.IsAtMost (2 ^ 63 - 1) self }
        requires second { tallies.IsAtMost (2 ^ 63 - 1) other }
        ensures { result ≡ tallies.plus self other }
    {
        Tally {
            txns: self.txns + other.txns,
            stale: self.stale + other.stale,
            loads: self.loads + other.loads,
            late: self.late + other.late,
            stores: self.stores + other.stores,
            events: self.events + other.events,
            sum: self.sum + other.sum,
        }
    }
}
