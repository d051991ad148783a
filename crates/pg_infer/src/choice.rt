//! A choice: what is done at an input, and where that leads.
ghost use Rattle.std.specs.Prelude.{◌≡◌, Some, IfOk};

use pg_perm::Sequence;
use pg_table::{Act, Desc, DirAct, DirDesc};
use std::alloc::{AllocError, Global};
use std::marker::Model;

/// Acts, and the state that they lead to.
#[derive(Debug, Drop)]
pub struct ControllerChoice<D, A> {
    pub acts: Sequence<A>,
    pub next: D,
}

impl<D, A> Model for ControllerChoice<D, A> {
    ghost use Rattle.pg_table.specs.Controllers.{ControllerChoice};

    ghost Value = { ControllerChoice D A };

    ghost view = { λ c. record { acts = c.acts; next = c.next } };
}

pub type Choice = ControllerChoice<Desc, Act>;

pub type DirChoice = ControllerChoice<DirDesc, DirAct>;

/// What is done, or none where the input can't come.
pub type ControllerChosen<D, A> = Result<Option<ControllerChoice<D, A>>, AllocError>;

pub type Chosen = ControllerChosen<Desc, Act>;

pub type DirChosen = ControllerChosen<DirDesc, DirAct>;

/// These acts, and then this state.
pub fn step<D: Drop, A: Copy + Drop>(alloc: Global, acts: &[A], next: D) -> ControllerChosen<D, A>
    ensures { IfOk result (λ c. c ≡ Some (record { acts = acts.now; next = next })) }
{
    let mut all = Vec::new(alloc);
    all.extend_from_slice(acts)?;
    Ok(Some(ControllerChoice {
        acts: Sequence::from(all),
        next,
    }))
}
