//! The history beside the value that it reached. It exists in proofs alone.
ghost use Rattle.std.specs.Prelude.{◌≡◌, ◌<◌, [], ◌++◌, IfOk};
ghost use Rattle.call_history.specs.Entries.{History};

use atomic_table::{Play, Seat, Table, TableRule};
use call_history::Entry;
use std::alloc::{AllocError, Global};
use std::collections::LinkedList;
use std::marker::{Model, PhantomData};

/// The entries that a step on the count adds, which the proof of its caller names.
pub(crate) trait RecordsSteps<C, R> {
    ghost said: { History C R };
}

impl<C, R> RecordsSteps<C, R> for std::marker::Brand {
    ghost said = { [] };
}

struct Unruled;

impl<C, R> TableRule<(), LinkedList<Entry<C, R>>, ()> for Unruled {
    ghost holds = { λ _ _. Unit {0} };

    ghost first = { λ _. [] };
}

struct Adds<K> {
    said: PhantomData<K>,
}

impl<C, R, K: RecordsSteps<C, R>> Play<(), LinkedList<Entry<C, R>>> for Adds<K> {
    ghost then = { λ _ me _ after. after ≡ (me.0 ++ K.said, me.1) };
}

/// The one seat of a table of its own. What the seat knows is the history, and nothing stores it.
#[derive(Drop)]
pub(crate) struct Recorder<C, R> {
    table: Table<(), LinkedList<Entry<C, R>>, (), Unruled, Global>,
    seat: Seat<(), LinkedList<Entry<C, R>>>,
}

impl<C, R> Model for Recorder<C, R> {
    ghost Value = { History C R };

    ghost view = { λ r. r.seat.me.0 };

    ghost invariant = { λ r.
        (r.seat.table_id ≡ r.table.shared.table_id) × (r.table.shared.table_id.words ≡ 1) };
}

impl<C, R> Recorder<C, R> {
    pub(crate) fn new(alloc: Global) -> Result<Recorder<C, R>, AllocError>
        ensures { IfOk result (λ r. r ≡ []) }
    {
        let (table, seat) = Table::of_words(alloc, &[0], &())?;
        Ok(Recorder { table, seat })
    }

    // Adds the entries of `K`.
    pub(crate) fn add<K: RecordsSteps<C, R>>(&mut self)
        ensures { self.new ≡ self.old ++ K.said }
    {
        let Recorder { table, seat } = self;
        table.shared.load::<Adds<K>>(seat, 0);
    }
}
