//! A machine shared by threads.
ghost use Rattle.std.specs.Prelude.{◌≡◌, ℕ, ◌<◌, ◌≤◌, [], ◌++◌, length, OnOk, OnErr, IfOk, IfErr};
ghost use Rattle.call_history.specs.declared.TheConstants.{MAX_PLACES};
ghost use Rattle.call_history.specs.Entries.{by, entry, entries_by, IsComplete};
ghost use Rattle.call_history.specs.Prefix.{IsPrefix};
ghost use Rattle.turn_lock.specs.Passes.{past_of, merged_entries, first_pass, IsMadeAt};
ghost use Rattle.turn_lock.specs.PassParts.{lower_part, upper_part, with_other};

use crate::held::Held;
use crate::machine::{At, Machine, PassExhausted};
use crate::pass::Pass;
use crate::steps::{cut, enter, give_back, merge, take_turn};
use crate::view::{FREE, Limits, Turn, View};
use atomic_table::{Refused, Table};
use std::alloc::{AllocError, AllocFailed, Global};
use std::marker::{Brand, Model};
use std::sync::Wait;

/// A machine that is called in turns. Each call on it needs a pass that it made.
#[derive(Drop)]
pub struct Shared<M: Machine> {
    table: Table<Option<Held<M>>, View<M::Call, M::Reply>, Limits, Turn, Global>,
}

impl<M: Machine> Model for Shared<M> {
    ghost use Rattle.std.specs.Prelude.{◌≡◌};
    ghost use Rattle.turn_lock.specs.Passes.{SharedView};

    ghost Value = { SharedView };

    ghost view = { λ s. record {
      table = s.table.shared.table_id;
      numbers = s.table.shared.key.numbers;
      allowance = s.table.shared.key.allowance;
    } };

    ghost invariant = { λ s. (s.table.shared.table_id.words ≡ 2) × (s.table.shared.table_id.slots ≡ 1) };
}

impl<M: Machine> Shared<M> {
    /// Shares the value, which the empty history must reach. The first pass owns the caller numbers from 0
    /// to below `numbers`, and has `allowance` calls. If out of memory, returns the value as it was passed
    /// in the error.
    pub fn start(
        alloc: Global,
        value: M,
        numbers: u32,
        allowance: u64,
    ) -> Result<(Shared<M>, Pass<M>), AllocFailed<M>>
        requires some_number { 0 < numbers }
        requires allowance { allowance ≤ MAX_PLACES }
        requires reaches { M.reaches [] value }
        ensures shared { IfOk result (λ r. (r.0.numbers ≡ numbers) × (r.0.allowance ≡ allowance)) }
        ensures pass { IfOk result (λ r. r.1 ≡ first_pass r.0.table numbers allowance) }
        ensures returned_turn { IfErr result (λ failed. failed.value ≡ value) }
    {
        let Ok(mut slots) = Vec::with_capacity(alloc, 1) else {
            return Err(AllocFailed { value });
        };
        slots.push_reserved(Some(Held::new(alloc, value)?));
        let limits = Limits { numbers, allowance };
        let (table, seat) = match Table::new(alloc, &[FREE, 0], slots, &limits) {
            Ok(opened) => opened,
            Err(Refused { mut slots }) => {
                let held = slots.pop().flatten().unwrap();
                return Err(AllocFailed {
                    value: held.into_value(),
                });
            }
        };
        let pass = Pass {
            seat,
            who: 0,
            high: numbers,
            left: allowance,
            made: 0,
        };
        Ok((Shared { table }, pass))
    }

    /// Makes a call, which is borrowed, under the pass's number: waits for the turn, and returns the reply
    /// and its place in the history. Returns `PassExhausted` exactly when the pass has no calls left, and
    /// then nothing has changed.
    pub fn call<W: Wait>(
        &self,
        rt: &W,
        pass: &mut Pass<M>,
        call: &M::Call,
    ) -> Result<At<M::Reply>, PassExhausted>
        requires belongs { pass.old.table ≡ self.now.table }
        requires fits { M.fits call.now }
        ensures at { IfOk result (λ r.
            IsMadeAt pass.old pass.new r.place (entry pass.old.who call.now r.reply)) }
        ensures lawful { OnOk result (M.lawful pass.new.seen) }
        ensures own { OnOk result (
            entries_by pass.old.who pass.new.seen ≡ past_of pass.old pass.old.who ++ pass.new.mine) }
        ensures worn { IfErr result (λ worn.
            (pass.old.left ≡ 0) × (worn.made ≡ length pass.old.mine) × (pass.new ≡ pass.old)) }
    {
        if pass.left == 0 {
            return Err(PassExhausted { made: pass.made });
        }
        let top = &self.table.shared;
        let Held { mut both } = take_turn(rt, top, &mut pass.seat);
        let lent = both.value.begin(pass.who, call);
        let place = enter::<Brand, M>(
            top,
            &mut pass.seat,
            &mut both.recorder,
            pass.who,
            call,
            &lent,
        );
        give_back(top, &mut pass.seat, Held { both });
        pass.left -= 1;
        pass.made += 1;
        // The turn is free by now, so that no other caller waits while the reply is finished.
        Ok(At {
            place,
            reply: M::finish(lent),
        })
    }

    /// Returns a new pass with the numbers from `at` on, and `give` of the calls. This pass retains the
    /// others. If out of memory, it is as before.
    pub fn split(&self, pass: &mut Pass<M>, at: u32, give: u64) -> Result<Pass<M>, AllocError>
        requires belongs { pass.old.table ≡ self.now.table }
        requires numbers { (pass.old.who < at) × (at < pass.old.high) }
        requires calls { give ≤ pass.old.left }
        ensures old { OnOk result (pass.new ≡ lower_part at give pass.old) }
        ensures new { IfOk result (λ new. new ≡ upper_part at give pass.old) }
        ensures kept { OnErr result (pass.new ≡ pass.old) }
    {
        let seat = cut::<Brand, M>(&self.table.shared, &mut pass.seat, at, give);
        let new = Pass {
            seat,
            who: at,
            high: pass.high,
            left: give,
            made: 0,
        };
        pass.high = at;
        pass.left -= give;
        Ok(new)
    }

    /// Takes in the pass of the numbers above, with its entries and its calls left. The longer of
    /// the two lists that were seen stays, and the other begins it.
    pub fn join(&self, pass: &mut Pass<M>, other: Pass<M>)
        requires belongs { (pass.old.table ≡ self.now.table) × (other.table ≡ self.now.table) }
        requires next { other.who ≡ pass.old.high }
        ensures after { pass.new ≡ with_other pass.old other }
        ensures seen { IsPrefix pass.old.seen pass.new.seen × IsPrefix other.seen pass.new.seen }
        ensures same { (caller : ℕ) → pass.old.who ≤ caller → caller < pass.old.high
            → past_of pass.new caller ≡ past_of pass.old caller }
        ensures first { past_of pass.new other.who ≡ past_of other other.who ++ other.mine }
        ensures others { (caller : ℕ) → other.who < caller → caller < other.high
            → past_of pass.new caller ≡ past_of other caller }
    {
        let Pass {
            seat,
            who: _,
            high,
            left,
            made: _,
        } = other;
        merge(&self.table.shared, &mut pass.seat, seat);
        pass.high = high;
        pass.left += left;
    }

    /// Ends the sharing, with the pass that owns all numbers again. The value is the one that the
    /// whole history leaves.
    pub fn close(self, pass: Pass<M>) -> M
        requires belongs { pass.table ≡ self.table }
        requires all { (pass.who ≡ 0) × (pass.high ≡ self.numbers) }
        ensures complete { IsComplete (pass.past ++ pass.mine) }
        ensures callers { (caller : ℕ) →
            entries_by caller (merged_entries pass) ≡ by caller (pass.past ++ pass.mine) }
        ensures seen { IsPrefix pass.seen (merged_entries pass) }
        ensures reaches { M.reaches (merged_entries pass) result }
    {
        let Pass { seat, .. } = pass;
        let mut closed = self.table.close_with(seat);
        let held = closed.take(0).unwrap();
        closed.free();
        held.into_value()
    }
}
