ghost use Rattle.std.specs.Prelude.{◌≡◌, ◌<◌, ◌++◌, [], ◌∷◌, length, drop, map, true, false, Some, slice_get};
ghost use Rattle.std.specs.List.{All};
ghost use Rattle.pg_turn.specs.Entries.{StartsWith};
ghost use Rattle.pg_turn.specs.Passes.{AreIdle, AreTrueOf, IsWhole, first_value, pass_count};

use crate::kept::Kept;
use crate::order::Glue;
use crate::turn::{Pass, Turn};
use crate::view::View;
use atomic_table::Seat;

impl<T: Kept> Turn<T> {
    /// Ends the turn and hands out the value. It wants all its passes, by number.
    pub fn close(self, passes: Vec<Pass<T>>) -> T
        requires { AreIdle self passes.items }
        ensures root { T.root result ≡ T.root (first_value self) }
        ensures begins { StartsWith (T.entries result) (T.entries (first_value self)) }
        ensures told { AreTrueOf T.maker (T.entries result) passes.items }
        ensures named { All (λ e. T.maker e < pass_count self) (drop (length (T.entries (first_value self))) (T.entries result)) }
    {
        let seat = gather(&self, passes);
        let Turn { table } = self;
        let mut closed = table.close_with(seat);
        let Some(value) = closed.take(0) else {
            unreachable!()
        };
        closed.free();
        value
    }
}

// One seat that has taken in those of all passes.
fn gather<T: Kept>(turn: &Turn<T>, mut passes: Vec<Pass<T>>) -> Seat<Option<T>, View<T, T::Entry>>
    requires { AreIdle turn.now passes.items }
    ensures { IsWhole turn.now passes.items result }
{
    let Some(
        Pass {
            number: _,
            seat: mut whole,
        },
    ) = passes.pop()
    else {
        unreachable!()
    };
    while let Some(
        Pass {
            number: _,
            seat: other,
        },
    ) = passes.pop()
    {
        turn.table.shared.join_seat::<Glue<T>>(&mut whole, other);
    }
    whole
}
