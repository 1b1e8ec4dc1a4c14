//! The table with the turn (word 0), the count of calls (word 1) and the value's slot.
ghost use Rattle.turn_lock.specs.Turns.{TurnInvariant};
ghost use Rattle.turn_lock.specs.Views.{first_view};

use crate::held::Held;
use crate::machine::Machine;
use atomic_table::{Seat, Shared, Table, TableRule};
use call_history::Entry;
use std::alloc::Global;
use std::collections::LinkedList;

// What word 0 is: the turn is free, a caller has it, or one has it and others may sleep until it is free.
pub(crate) const FREE: u64 = 0;

pub(crate) const TAKEN: u64 = 1;

pub(crate) const AWAITED: u64 = 2;

// What a seat knows. No value of it is made.
pub(crate) struct View<C, R> {
    pub who: u32,
    pub high: u32,
    pub left: u64,
    /// The seat has the turn.
    pub turn: bool,
    pub seen: LinkedList<Entry<C, R>>,
    /// The shorter list at the last join.
    pub told: LinkedList<Entry<C, R>>,
    pub mine: LinkedList<(u64, Entry<C, R>)>,
    pub past: LinkedList<(u64, Entry<C, R>)>,
}

// How many caller numbers there are, and how many calls in all.
#[derive(Drop)]
pub(crate) struct Limits {
    pub numbers: u32,
    pub allowance: u64,
}

pub(crate) struct Turn;

impl<M: Machine> TableRule<Option<Held<M>>, View<M::Call, M::Reply>, Limits> for Turn {
    ghost holds = { λ limits. TurnInvariant M.reaches limits.numbers limits.allowance };

    ghost first = { λ limits. first_view limits.numbers limits.allowance };
}

pub(crate) type Owned<M> = Table<
    Option<Held<M>>,
    View<<M as Machine>::Call, <M as Machine>::Reply>,
    Limits,
    Turn,
    Global,
>;

pub(crate) type Top<M> = Shared<
    Option<Held<M>>,
    View<<M as Machine>::Call, <M as Machine>::Reply>,
    Limits,
    Turn,
>;

pub(crate) type Place<M> = Seat<Option<Held<M>>, View<<M as Machine>::Call, <M as Machine>::Reply>>;
