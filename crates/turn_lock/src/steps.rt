//! The steps of a call on the table, and those of a split and a join.
ghost use Rattle.std.specs.Prelude.{◌≡◌, ℕ, ◌+◌, ◌-◌, ◌<◌, ◌≤◌, true};
ghost use Rattle.std.specs.Prelude.{false, [], ◌∷◌, ◌++◌, length, Some, None, IsTrue, IsFalse};
ghost use Rattle.call_history.specs.declared.TheConstants.{MAX_PLACES};
ghost use Rattle.call_history.specs.Prefix.{IsPrefix};
ghost use Rattle.call_history.specs.Entries.{by, entries_by, entry};
ghost use Rattle.turn_lock.specs.Views.{Owns};
ghost use Rattle.turn_lock.specs.Steps.{HasTaken, counted_view, lower_view, upper_view, joined_view};

use crate::held::Held;
use crate::machine::Machine;
use crate::plays::{Count, Cut, Glue, Look, Parts, Release, Try};
use crate::recorder::{Recorder, RecordsSteps};
use crate::view::{AWAITED, FREE, Place, TAKEN, Top};
use std::sync::Wait;
use std::thread;

// How often a caller tries for the turn before it sleeps.
const MAX_TRIES: u32 = 20;

// Takes the turn if it is free at one of `MAX_TRIES` tries, between which other threads may run.
fn try_for_turn<M: Machine>(top: &Top<M>, seat: &mut Place<M>) -> bool
    requires table { (seat.old.table_id ≡ top.now.table_id) × (top.now.table_id.words ≡ 2) }
    requires idle { (seat.old.me.1 ≡ []) × (seat.old.me.0.who < seat.old.me.0.high) }
    ensures seat { (seat.new.table_id ≡ seat.old.table_id) × (seat.new.id ≡ seat.old.id) }
    ensures taken { IsTrue result → HasTaken seat.old.me seat.new.me }
    ensures kept { IsFalse result → seat.new.me ≡ seat.old.me }
{
    'tries: for _ in 0..MAX_TRIES {
        if top.compare_exchange::<Try>(seat, 0, FREE, TAKEN) == FREE {
            return true;
        }
        thread::yield_now();
    }
    false
}

// Takes the turn, and sleeps until it is free. Others may sleep still, so it stays marked as awaited.
fn sleep_for_turn<M: Machine, W: Wait>(rt: &W, top: &Top<M>, seat: &mut Place<M>)
    requires table { (seat.old.table_id ≡ top.now.table_id) × (top.now.table_id.words ≡ 2) }
    requires idle { (seat.old.me.1 ≡ []) × (seat.old.me.0.who < seat.old.me.0.high) }
    ensures seat { (seat.new.table_id ≡ seat.old.table_id) × (seat.new.id ≡ seat.old.id) }
    ensures taken { HasTaken seat.old.me seat.new.me }
{
    for _ in rt.forever() {
        if top.swap::<Try>(seat, 0, AWAITED) == FREE {
            return;
        }
        top.park(rt, 0, AWAITED as u32);
    }
}

// Takes the turn. A caller that tried in vain for a while sleeps, so that it keeps no processor busy.
fn await_turn<M: Machine, W: Wait>(rt: &W, top: &Top<M>, seat: &mut Place<M>)
    requires table { (seat.old.table_id ≡ top.now.table_id) × (top.now.table_id.words ≡ 2) }
    requires idle { (seat.old.me.1 ≡ []) × (seat.old.me.0.who < seat.old.me.0.high) }
    ensures seat { (seat.new.table_id ≡ seat.old.table_id) × (seat.new.id ≡ seat.old.id) }
    ensures taken { HasTaken seat.old.me seat.new.me }
{
    if try_for_turn(top, seat) {
        return;
    }
    sleep_for_turn(rt, top, seat);
}

// Waits for the turn, and takes the value out of its slot.
pub(crate) fn take_turn<M: Machine, W: Wait>(rt: &W, top: &Top<M>, seat: &mut Place<M>) -> Held<M>
    requires table { (seat.old.table_id ≡ top.now.table_id) × (top.now.table_id.words ≡ 2) }
    requires idle { (seat.old.me.1 ≡ []) × (seat.old.me.0.who < seat.old.me.0.high) }
    ensures seen { IsPrefix seat.old.me.0.seen result.history }
    ensures seat { (seat.new.table_id ≡ seat.old.table_id) × (seat.new.id ≡ seat.old.id) }
    ensures turn { seat.new.me
        ≡ (record seat.old.me.0 { turn = true; seen = result.history }, (0, None) ∷ []) }
{
    await_turn(rt, top, seat);
    top.exchange(seat, 0, None).unwrap()
}

// Counts the entry of a call, which gives its place, and records it beside the value.
pub(crate) fn enter<K: RecordsSteps<M::Call, M::Reply>, M: Machine>(
    top: &Top<M>,
    seat: &mut Place<M>,
    recorder: &mut Recorder<M::Call, M::Reply>,
    who: u32,
    call: &M::Call,
    lent: &M::Pending,
) -> u64
    requires table { (seat.old.table_id ≡ top.now.table_id) × (top.now.table_id.words ≡ 2) }
    requires said { K.said ≡ entry who call.now (M.reply lent.now) ∷ [] }
    requires turn { (seat.old.me.0.turn ≡ true) × (seat.old.me.0.who ≡ who) × (0 < seat.old.me.0.left) }
    ensures seat { (seat.new.table_id ≡ seat.old.table_id) × (seat.new.id ≡ seat.old.id) }
    ensures counted { seat.new.me
        ≡ (counted_view seat.old.me.0 (entry who call.now (M.reply lent.now) ∷ []), seat.old.me.1) }
    ensures own { by who (seat.new.me.0.past ++ seat.new.me.0.mine) ≡ entries_by who seat.new.me.0.seen }
    ensures recorded { recorder.new ≡ recorder.old ++ entry who call.now (M.reply lent.now) ∷ [] }
    ensures place { result ≡ length seat.old.me.0.seen }
{
    let place = top.fetch_add::<Count<K>>(seat, 1, 1);
    recorder.add::<K>();
    place
}

// Gives the value back and frees the turn, and wakes a caller that sleeps for it.
pub(crate) fn give_back<M: Machine>(top: &Top<M>, seat: &mut Place<M>, held: Held<M>)
    requires table { (seat.old.table_id ≡ top.now.table_id)
        × (top.now.table_id.words ≡ 2) × (top.now.table_id.slots ≡ 1) }
    requires turn { (seat.old.me.0.turn ≡ true)
        × (seat.old.me.0.seen ≡ held.history) × (seat.old.me.1 ≡ (0, None) ∷ []) }
    requires is_reached { M.reaches held.history held.value }
    ensures seat { (seat.new.table_id ≡ seat.old.table_id) × (seat.new.id ≡ seat.old.id) }
    ensures free { seat.new.me ≡ (record seat.old.me.0 { turn = false }, []) }
{
    top.exchange(seat, 0, Some(held));
    if top.swap::<Release>(seat, 0, FREE) == AWAITED {
        top.wake_one(0);
    }
}

// Cuts what a seat knows in two.
pub(crate) fn cut<P: Parts, M: Machine>(
    top: &Top<M>,
    seat: &mut Place<M>,
    at: u32,
    give: u64,
) -> Place<M>
    requires table { (seat.old.table_id ≡ top.now.table_id) × (top.now.table_id.words ≡ 2) }
    requires parts { (P.at ≡ at) × (P.give ≡ give) }
    requires numbers { (seat.old.me.0.who < at) × (at < seat.old.me.0.high) × (give ≤ seat.old.me.0.left) }
    requires idle { (seat.old.me.1 ≡ []) × (seat.old.me.0.turn ≡ false)
        × (by seat.old.me.0.who seat.old.me.0.mine ≡ seat.old.me.0.mine) }
    ensures seat { (seat.new.table_id ≡ seat.old.table_id)
        × (seat.new.me ≡ (lower_view at give seat.old.me.0, [])) }
    ensures other { (result.table_id ≡ seat.old.table_id)
        × (result.me ≡ (upper_view at give seat.old.me.0, [])) }
{
    top.split_seat::<Cut<P>>(seat)
}

// A seat takes over what another knows.
pub(crate) fn merge<M: Machine>(top: &Top<M>, seat: &mut Place<M>, other: Place<M>)
    requires table { (seat.old.table_id ≡ top.now.table_id) × (other.table_id ≡ top.now.table_id)
        × (top.now.table_id.words ≡ 2) }
    requires numbers { (seat.old.me.0.who < seat.old.me.0.high) × (other.me.0.who ≡ seat.old.me.0.high)
        × (other.me.0.who < other.me.0.high) }
    requires idle { (seat.old.me.1 ≡ []) × (other.me.1 ≡ [])
        × (seat.old.me.0.turn ≡ false) × (other.me.0.turn ≡ false) }
    requires mine { by seat.old.me.0.who seat.old.me.0.mine ≡ seat.old.me.0.mine }
    requires entries { ((caller : ℕ) → ¬ Owns seat.old.me.0 caller → by caller seat.old.me.0.past ≡ [])
        × ((caller : ℕ) → ¬ Owns other.me.0 caller → by caller (other.me.0.past ++ other.me.0.mine) ≡ []) }
    ensures seat { (seat.new.table_id ≡ seat.old.table_id)
        × (seat.new.me ≡ (joined_view seat.old.me.0 other.me.0, [])) }
    ensures told { IsPrefix seat.new.me.0.told seat.new.me.0.seen }
    ensures room { seat.new.me.0.left + length seat.new.me.0.mine ≤ MAX_PLACES }
{
    top.join_seat::<Glue>(seat, other);
    top.load::<Look>(seat, 0);
}
