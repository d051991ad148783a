ghost use Rattle.std.specs.Prelude.{◌≡◌, ◌<◌, ◌^◌, [], ◌∷◌, length, vec_len, vec_capacity, Some, IfOk, IfErr};
ghost use Rattle.pg_turn.specs.Views.{opened};
ghost use Rattle.pg_turn.specs.Passes.{AreFresh, first_value, pass_count};

use crate::kept::Kept;
use crate::order::Cut;
use crate::turn::{Pass, Turn};
use crate::view::{Origin, View};
use atomic_table::{Refused, Seat, Table};
use std::alloc::{AllocError, Global};
use std::snapshot::Snapshot;

impl<T: Kept> Turn<T> {
    /// A turn of this value, with as many passes, numbered from 0 on. Where memory runs out, the value comes back.
    pub fn make(
        alloc: Global,
        value: T,
        seats: u32,
    ) -> Result<(Turn<T>, Vec<Pass<T>>), (T, AllocError)>
        requires seats { 0 < seats }
        requires few { length (T.entries value) < 2 ^ 62 }
        ensures value { IfOk result (λ made. first_value made.0 ≡ value) }
        ensures seats { IfOk result (λ made. pass_count made.0 ≡ seats) }
        ensures passes { IfOk result (λ made. AreFresh T.entries T.maker made.0 made.1.items) }
        ensures back { IfErr result (λ refused. refused.0 ≡ value) }
    {
        let Ok(passes) = Vec::with_capacity(alloc, seats as usize) else {
            return Err((value, AllocError));
        };
        let Ok(mut slots) = Vec::with_capacity(alloc, 1) else {
            return Err((value, AllocError));
        };
        let about = Origin {
            value: Snapshot::of(&value),
            seats,
        };
        let word = 2 * value.count();
        slots.push_reserved(Some(value));
        match Table::new(alloc, &[word], slots, &about) {
            Ok((table, seat)) => {
                let turn = Turn { table };
                let passes = deal(&turn, seat, passes, seats);
                Ok((turn, passes))
            }
            Err(Refused { slots }) => Err((only(slots), AllocError)),
        }
    }
}

// The value of a list that has no other.
fn only<T>(mut slots: Vec<Option<T>>) -> T
    requires { (value : T) × (slots.items ≡ Some value ∷ []) }
    ensures { slots.items ≡ Some result ∷ [] }
{
    let Some(Some(value)) = slots.pop() else {
        unreachable!()
    };
    slots.destroy_empty();
    value
}

// All passes: the first has this seat, and each other one's is split off from it.
fn deal<T: Kept>(
    turn: &Turn<T>,
    seat: Seat<Option<T>, View<T, T::Entry>>,
    mut passes: Vec<Pass<T>>,
    seats: u32,
) -> Vec<Pass<T>>
    requires seats { seats ≡ pass_count turn.now }
    requires room { (passes.items ≡ []) × (vec_len passes ≡ 0) × (vec_capacity passes ≡ seats) }
    requires table { seat.table_id ≡ turn.now.table.shared.table_id }
    requires first { seat.me ≡ (opened T.entries T.maker (first_value turn.now), []) }
    ensures { AreFresh T.entries T.maker turn.now result.items }
{
    passes.push_reserved(Pass { number: 0, seat });
    for number in 1..seats {
        let seat = turn.table.shared.split_seat::<Cut<T>>(&mut passes[0].seat);
        passes.push_reserved(Pass { number, seat });
    }
    passes
}
