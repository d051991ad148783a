//! The table of a controller, which is put together state by state and row by row.
ghost use Rattle.std.specs.Prelude.{◌≡◌, ◌<◌, ℕ, true, [], ◌∷◌, ◌++◌, length, position, slice_get, Option, Some, IfOk, IfSome, OnOk};
ghost use Rattle.std.specs.List.{list_any};
ghost use Rattle.pg_perm.specs.declared.draft.Draft.{Draft};
ghost use Rattle.pg_perm.specs.declared.kinds.Mode.{Mode};
ghost use Rattle.pg_table.specs.Controllers.{ControllerChoice};
ghost use Rattle.pg_table.specs.Controllers as table;
ghost use Rattle.pg_infer.specs.Steps as steps;

use crate::choice::{ControllerChoice, ControllerChosen};
use pg_perm::{Mode, Sequence};
use pg_shape::Protocol;
use pg_table::{ControllerRow, ControllerTable};
use std::alloc::{AllocError, Global};

/// A state of a controller of a protocol.
pub trait State: Copy + PartialEq + Drop {
    type Input: Copy + Drop;

    type Act: Drop;

    ghost choice: { Draft → Mode → Self → Self.Input → Option (ControllerChoice Self Self.Act) };

    /// What is done in the state at an input, or none where the input can't come.
    fn choose(
        self,
        alloc: Global,
        protocol: &Protocol,
        mode: Mode,
        input: Self::Input,
    ) -> ControllerChosen<Self, Self::Act>
        ensures { IfOk result (λ c. c ≡ choice protocol.now mode self input) };
}

fn place_of<D: Copy + PartialEq>(states: &[D], desc: D) -> Option<usize>
    ensures exact { result ≡ position (λ s. D.eq s desc) states.now }
    ensures within { IfSome result (λ place. place < length states.now) }
{
    states.iter().position(|state| *state == desc)
}

#[tactic(auto, using(pg_shape::proofs::Searches::position_none))]
/// The number of one of the states.
fn number_of<D: Copy + PartialEq>(states: &[D], desc: D) -> u16
    requires few { length states.now < 65536 }
    requires among { list_any (λ s. D.eq s desc) states.now ≡ true }
    ensures { result ≡ table.number_by D.eq states.now desc }
{
    place_of(states, desc).unwrap() as u16
}

fn row_of<D: Copy + PartialEq + Drop, I: Drop, A: Drop>(
    alloc: Global,
    states: &[D],
    input: I,
    choice: ControllerChoice<D, A>,
) -> Result<ControllerRow<I, A>, AllocError>
    requires few { length states.now < 65536 }
    requires among { list_any (λ s. D.eq s choice.next) states.now ≡ true }
    ensures { IfOk result (λ row. row ≡ table.table_row_by D.eq states.now (record { input = input; choice = choice })) }
{
    let mut inputs = Sequence::new(alloc);
    inputs.push(input)?;
    Ok(ControllerRow {
        inputs,
        next: number_of(states, choice.next),
        acts: choice.acts,
    })
}

/// The row of a state at an input, if that may come.
fn row_at<D: State>(
    alloc: Global,
    protocol: &Protocol,
    mode: Mode,
    states: &[D],
    state: D,
    input: D::Input,
) -> Result<Option<ControllerRow<D::Input, D::Act>>, AllocError>
    requires few { length states.now < 65536 }
    requires onward { (c : ControllerChoice D D.Act) → D.choice protocol.now mode state input ≡ Some c
        → list_any (λ s. D.eq s c.next) states.now ≡ true }
    ensures { IfOk result (λ row. row ≡ steps.row_at D.eq states.now (D.choice protocol.now mode state) input) }
{
    let choice = state.choose(alloc, protocol, mode, input)?;
    match choice {
        Some(choice) => Ok(Some(row_of(alloc, states, input, choice)?)),
        None => Ok(None),
    }
}

/// Puts a state with its rows last.
fn add_state<D: State>(
    alloc: Global,
    protocol: &Protocol,
    mode: Mode,
    states: &[D],
    inputs: &[D::Input],
    state: D,
    table: &mut ControllerTable<D, D::Input, D::Act>,
) -> Result<(), AllocError>
    requires few { length states.now < 65536 }
    requires onward { (i : D.Input) (c : ControllerChoice D D.Act) → D.choice protocol.now mode state i ≡ Some c
        → list_any (λ s. D.eq s c.next) states.now ≡ true }
    requires room { length table.old < 65535 }
    ensures { OnOk result (table.new ≡ table.old ++ steps.state_of D.eq states.now (D.choice protocol.now mode) inputs.now state ∷ []) }
{
    table.add_state(state)?;
    for input in inputs {
        if let Some(row) = row_at(alloc, protocol, mode, states, state, *input)? {
            table.add_row(row)?;
        }
    }
    Ok(())
}

#[tactic(auto, using(crate::proofs::Steps::state_put, crate::proofs::Steps::states_are_table))]
/// The table of these states, with their rows at these inputs.
pub fn table_of<D: State>(
    alloc: Global,
    protocol: &Protocol,
    mode: Mode,
    states: &[D],
    inputs: &[D::Input],
) -> Result<ControllerTable<D, D::Input, D::Act>, AllocError>
    requires few { length states.now < 65536 }
    requires onward { (n : ℕ) (s : D) (i : D.Input) (c : ControllerChoice D D.Act) → slice_get states.now n ≡ Some s
        → D.choice protocol.now mode s i ≡ Some c → list_any (λ s. D.eq s c.next) states.now ≡ true }
    ensures { IfOk result (λ made. made ≡ table.table_by D.eq (D.choice protocol.now mode) inputs.now states.now) }
{
    let mut table = ControllerTable::new(alloc);
    for state in states {
        add_state(alloc, protocol, mode, states, inputs, *state, &mut table)?;
    }
    Ok(table)
}
