// The rule of the table, and what its steps tell. These types are for the proofs alone.
use crate::kept::Kept;
use crate::view::{Origin, View};
use atomic_table::{Join, Play, Split, TableRule};
use std::marker::PhantomData;

/// The rule: entries are only added, by the one pass that holds the value.
pub struct Order<T> {
    of: PhantomData<T>,
}

impl<T: Kept> TableRule<Option<T>, View<T, T::Entry>, Origin<T>> for Order<T> {
    ghost use Rattle.pg_turn.specs.Rule.{InOrder};
    ghost use Rattle.pg_turn.specs.Views.{opened};

    ghost holds = { λ key. InOrder T.entries T.root T.maker key.value.value key.seats };

    ghost first = { λ key. opened T.entries T.maker key.value.value };
}

// The step of a try.
pub(crate) struct Grab<T> {
    of: PhantomData<T>,
}

impl<T: Kept> Play<Option<T>, View<T, T::Entry>> for Grab<T> {
    ghost use Rattle.pg_turn.specs.Views.{grabbed};

    ghost then = { grabbed T.entries T.root T.maker };
}

// The step that puts the value back.
pub(crate) struct Release<T> {
    of: PhantomData<T>,
}

impl<T: Kept> Play<Option<T>, View<T, T::Entry>> for Release<T> {
    ghost use Rattle.pg_turn.specs.Views.{released};

    ghost then = { released T.entries };
}

// One more pass.
pub(crate) struct Cut<T> {
    of: PhantomData<T>,
}

impl<T: Kept> Split<View<T, T::Entry>> for Cut<T> {
    ghost use Rattle.pg_turn.specs.Views.{counted, newcomer};

    ghost left = { counted };

    ghost right = { newcomer T.entries T.maker };
}

// One pass less, at the end.
pub(crate) struct Glue<T> {
    of: PhantomData<T>,
}

impl<T: Kept> Join<View<T, T::Entry>> for Glue<T> {
    ghost use Rattle.pg_turn.specs.Views.{absorbed, nobody};

    ghost both = { absorbed };

    ghost spent = { nobody };
}
