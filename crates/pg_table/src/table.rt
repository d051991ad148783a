//! The table of a controller, whatever its states, inputs and acts are.
ghost use Rattle.std.specs.Prelude.{◌≡◌, ◌<◌, [], ◌∷◌, ◌++◌, length, slice_get, Some, OnOk, OnErr, IfSome};
ghost use Rattle.std.specs.List.{find};
ghost use Rattle.std.specs.Option.{option_copied, option_map, option_and_then};
ghost use Rattle.pg_table.specs.Controllers as table;

use pg_perm::Sequence;
use std::alloc::{AllocError, Global};
use std::marker::Model;

/// What a controller does in a state at each of some inputs, and the number of the state that it goes to.
#[derive(Debug, Drop, PartialEq, Eq)]
pub struct ControllerRow<I, A> {
    pub inputs: Sequence<I>,
    pub acts: Sequence<A>,
    pub next: u16,
}

/// A state and its rows.
#[derive(Debug, Drop, PartialEq, Eq)]
pub struct ControllerState<D, I, A> {
    pub desc: D,
    pub rows: Sequence<ControllerRow<I, A>>,
}

/// The table of a controller, made state by state and row by row. There are at most 65,535 states.
///
/// Contracts see the list of its states. The number of a state is its place in that list, from 0 on.
#[derive(Debug, Drop)]
pub struct ControllerTable<D, I, A> {
    states: Vec<ControllerState<D, I, A>>,
}

impl<D, I, A> Model for ControllerTable<D, I, A> {
    ghost use Rattle.std.specs.Prelude.{List, ◌<◌, length};
    ghost use Rattle.pg_table.specs.declared.table.ControllerState.{ControllerState};

    ghost Value = { List (ControllerState D I A) };

    ghost view = { λ t. t.states.items };

    ghost invariant = { λ t. length t.states.items < 65536 };
}

impl<D, I, A> ControllerTable<D, I, A> {
    /// A table without states, which takes no memory.
    pub fn new(alloc: Global) -> ControllerTable<D, I, A>
        ensures { result ≡ [] }
    {
        ControllerTable {
            states: Vec::new(alloc),
        }
    }

    /// How many states there are.
    pub fn states(&self) -> u16
        ensures { result ≡ length self.now }
    {
        self.states.len() as u16
    }

    /// How many rows a state has.
    pub fn rows(&self, state: u16) -> usize
        requires { state < length self.now }
        ensures { option_map (λ s. length s.rows) (slice_get self.now state) ≡ Some result }
    {
        self.states[usize::from(state)].rows.len()
    }

    /// The row of a state at a place, counted from 0.
    pub fn row_at(&self, state: u16, i: usize) -> &ControllerRow<I, A>
        requires state { state < length self.now }
        requires row { IfSome (slice_get self.now state) (λ s. i < length s.rows) }
        ensures { option_and_then (λ s. slice_get s.rows i) (slice_get self.now state) ≡ Some result.now }
    {
        &self.states[usize::from(state)].rows.as_slice()[i]
    }
}

impl<D: Copy, I, A> ControllerTable<D, I, A> {
    /// The state with this number, from 0.
    pub fn desc(&self, state: u16) -> D
        requires { state < length self.now }
        ensures { option_map (λ s. s.desc) (slice_get self.now state) ≡ Some result }
    {
        self.states[usize::from(state)].desc
    }
}

impl<D: Drop, I: Drop, A: Drop> ControllerTable<D, I, A> {
    /// Puts a state without rows last. Where memory runs out, the table stays as it was.
    pub fn add_state(&mut self, desc: D) -> Result<(), AllocError>
        requires { length self.old < 65535 }
        ensures added { OnOk result (self.new ≡ self.old ++ record { desc = desc; rows = [] } ∷ []) }
        ensures refused { OnErr result (self.new ≡ self.old) }
    {
        let rows = Sequence::new(*self.states.allocator());
        self.states.push(ControllerState { desc, rows })?;
        Ok(())
    }

    #[tactic(auto, using(crate::proofs::LastState::set_last_is_with_row))]
    /// Puts a row last among those of the last state. Where memory runs out, the table stays as it was and the row is given up.
    pub fn add_row(&mut self, row: ControllerRow<I, A>) -> Result<(), AllocError>
        requires { 0 < length self.old }
        ensures added { OnOk result (self.new ≡ table.with_row self.old row) }
        ensures refused { OnErr result (self.new ≡ self.old) }
    {
        let last = self.states.len() - 1;
        self.states[last].rows.push(row)
    }
}

impl<D, I: Copy + PartialEq, A> ControllerTable<D, I, A> {
    /// The first row that a state has for an input, or none where it has none or isn't there.
    pub fn find(&self, state: u16, input: I) -> Option<&ControllerRow<I, A>>
        ensures { option_copied result ≡ table.find_row_by I.eq self.now state input }
    {
        let at = self.states.get(usize::from(state))?;
        row_for(at.rows.as_slice(), input)
    }
}

fn row_for<I: Copy + PartialEq, A>(
    rows: &[ControllerRow<I, A>],
    input: I,
) -> Option<&ControllerRow<I, A>>
    ensures { option_copied result ≡ find (λ r. table.has_input_by I.eq r.inputs input) rows.now }
{
    rows.iter().find(|row| has_input(&row.inputs, input))
}

fn has_input<I: Copy + PartialEq>(inputs: &Sequence<I>, input: I) -> bool
    ensures { result ≡ table.has_input_by I.eq inputs.now input }
{
    inputs.as_slice().iter().any(|have| *have == input)
}
