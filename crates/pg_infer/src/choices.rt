//! What is done in each state at each input.
ghost use Rattle.std.specs.Prelude.{◌≡◌, IfOk};
ghost use Rattle.pg_table.specs.Choices as may;
ghost use Rattle.pg_table.specs.GeneratedStates.{choice_of_mode};

use crate::asking::{when_loading, when_storing, when_upgrading, when_waiting};
use crate::choice::Chosen;
use crate::controller::State;
use crate::stable::{when_leaving, when_stable};
use pg_perm::{Event, Mode};
use pg_shape::Protocol;
use pg_table::{Act, Desc, Input, Phase, Tag};
use std::alloc::Global;

fn when_asking(
    alloc: Global,
    protocol: &Protocol,
    mode: Mode,
    event: Event,
    start: u8,
    phase: Phase,
    tag: Tag,
    input: Input,
) -> Chosen
    ensures { IfOk result (λ c. c ≡ choice_of_mode mode (may.choices protocol.now (Desc.Ask event start phase tag) input)) }
{
    match (event, phase) {
        (Event::Load, Phase::D) => when_loading(alloc, protocol, mode, start, tag, input),
        (Event::Store, Phase::Ad) => when_storing(alloc, protocol, mode, start, tag, input),
        (Event::Store, Phase::Ac) => when_upgrading(alloc, protocol, start, input),
        (Event::Store, Phase::A) => when_waiting(alloc, protocol, mode, start, tag, input),
        _ => Ok(None),
    }
}

impl State for Desc {
    type Input = Input;

    type Act = Act;

    ghost choice = { λ d m s i. choice_of_mode m (may.choices d s i) };

    /// What is done in a state at an input, or none where the input can't come. Of two choices the stalling mode has the one in which the forward
    /// waits, and the deferring mode the other.
    fn choose(self, alloc: Global, protocol: &Protocol, mode: Mode, input: Input) -> Chosen {
        match self {
            Desc::Stable(state) => when_stable(alloc, protocol, state, input),
            Desc::Ask {
                event,
                start,
                phase,
                tag,
            } => when_asking(alloc, protocol, mode, event, start, phase, tag, input),
            Desc::Leave(state) => when_leaving(alloc, protocol, state, input),
        }
    }
}
