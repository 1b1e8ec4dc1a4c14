//! What each atomic step on the table returns to the seat that makes it.
ghost use Rattle.std.specs.Prelude.{ℕ};
ghost use Rattle.turn_lock.specs.Views.{spent_view};
ghost use Rattle.turn_lock.specs.Steps.{try_step, counted, release_step, look_step};
ghost use Rattle.turn_lock.specs.Steps.{lower_view, upper_view, joined_view};

use crate::held::Held;
use crate::machine::Machine;
use crate::recorder::RecordsSteps;
use crate::view::View;
use atomic_table::{Join, Play, Split};
use std::marker::{Brand, PhantomData};

/// The first step of a call: the turn is taken if it is free, and the value's slot with it.
pub(crate) struct Try;

impl<M: Machine> Play<Option<Held<M>>, View<M::Call, M::Reply>> for Try {
    ghost then = { λ _. try_step };
}

/// The step that gives a call its place.
pub(crate) struct Count<K> {
    said: PhantomData<K>,
}

impl<M: Machine, K: RecordsSteps<M::Call, M::Reply>> Play<Option<Held<M>>, View<M::Call, M::Reply>>
    for Count<K> {
    ghost then = { λ _. counted K.said };
}

/// The slot goes home, and the turn is free.
pub(crate) struct Release;

impl<M: Machine> Play<Option<Held<M>>, View<M::Call, M::Reply>> for Release {
    ghost then = { λ _. release_step };
}

/// The number at which a pass is split, and how many calls the new one gets; the proof of the caller names
/// both.
pub(crate) trait Parts {
    ghost at: { ℕ };

    ghost give: { ℕ };
}

impl Parts for Brand {
    ghost at = { 0 };

    ghost give = { 0 };
}

pub(crate) struct Cut<P> {
    parts: PhantomData<P>,
}

impl<C, R, P: Parts> Split<View<C, R>> for Cut<P> {
    ghost left = { lower_view P.at P.give };

    ghost right = { upper_view P.at P.give };
}

/// A seat takes over what another knows.
pub(crate) struct Glue;

impl<C, R> Join<View<C, R>> for Glue {
    ghost both = { joined_view };

    ghost spent = { spent_view };
}

/// A look at the table after a join, which changes nothing.
pub(crate) struct Look;

impl<M: Machine> Play<Option<Held<M>>, View<M::Call, M::Reply>> for Look {
    ghost then = { λ _. look_step };
}
