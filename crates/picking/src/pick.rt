// One pick by a prepared list, any whatever, on the bytes of the sums.
ghost use Rattle.std.specs.Prelude.{◌≡◌, cond, suc, ◌/◌, ◌^◌, ◌≤◌, ◌<◌, length};
ghost use Rattle.plan.specs.Sound.{max_workers};
ghost use Rattle.run.specs.Updates.{count};
ghost use Rattle.steps.specs.Code.Steps.{told, PickMade};
ghost use Rattle.machine.specs.Record.{state_of};
ghost use Rattle.words.specs.LittleEndian.{signed};
ghost use Rattle.prepared.specs.Format.{gates_from};
ghost use Rattle.prepared.specs.Tables.{next_by, refusal_by};
ghost use Rattle.picking.specs.Code.Reads.{update_of, update_at, number_next, Head};
ghost use Rattle.picking.specs.Code.Picks.{tables_in, Opened, Seen, SumsKept};

use crate::gates::is_shut;
use crate::head::Sizes;
use crate::places::{Entry, load_at, number_at, store_at, update_at, word_at};
use base::Kind;
use machine::state::State;
use plan::MAX_WORKERS;
use prepared::{FIRST, HEAD, MOST, UPDATE};

// The number of the update that a worker's access belongs to, after so many: an update is a load and its store.
fn update_number(accesses: u32) -> usize
    ensures { (result ≡ accesses / 2) × (result < 2 ^ 32) }
{
    (accesses / 2) as usize
}

// The update of worker w's next access.
fn next_update(list: &[u8], count: usize, made: &[u32; MAX_WORKERS], w: usize) -> Entry
    requires { (w < max_workers) × (gates_from count ≤ length list.now) }
    ensures { update_of result ≡ update_at list.now count (number_next list.now made.now w) }
{
    let first = number_at(list, FIRST + w * 4);
    update_at(list, count, first + update_number(made[w]))
}

// Why a step of worker w is refused by the counts, if it is. The gate of the row that a worker was last seen at is
// open, and not looked at again.
pub fn refusal(
    list: &[u8],
    sizes: Sizes,
    made: &[u32; MAX_WORKERS],
    seen: &[usize; MAX_WORKERS],
    w: usize,
) -> Result<(), Kind>
    requires { Head list.now sizes.rows sizes.crew sizes.count × Opened list.now sizes.rows sizes.count made.now seen.now }
    ensures { told result ≡ refusal_by (tables_in list.now) made.now w }
{
    if sizes.crew <= w {
        return Err(Kind::NoWorker);
    }
    if word_at(list, MOST + w * 4) <= made[w] {
        return Err(Kind::AllDone);
    }
    let e = next_update(list, sizes.count, made, w);
    let row = e.row;
    if row == seen[w] {
        return Ok(());
    }
    if is_shut(list, HEAD + sizes.count * UPDATE, sizes.rows, row, made) {
        return Err(Kind::MustWait);
    }
    Ok(())
}

// a, or else b.
fn either(first: bool, a: i64, b: i64) -> i64
    ensures { result ≡ cond first a b }
{
    if first { a } else { b }
}

// Worker w loads or stores the sum of an update. A sum to store that would pass 64 bits is refused: then all is as it
// was. A load is a store of the sum as it is, so that no branch goes by which of the two it is: they come in no order
// that a processor could foresee.
fn access(state: &mut State, sums: &mut [u8], rows: usize, w: usize, e: Entry) -> Result<(), Kind>
    requires { (w < max_workers) × (suc (count state.old.made w) < 2 ^ 32) × (rows ≡ length sums.old / 8) }
    ensures { PickMade 0 (state_of state.old (signed 8 sums.old)) w (update_of e) (told result) (state_of state.new (signed 8 sums.new))
        × SumsKept rows sums.old sums.new }
{
    let target = e.target;
    let amount = e.amount;
    let loads = state.made[w] % 2 == 0;
    let from = either(loads, load_at(sums, rows, target), state.held[w]);
    let Some(sum) = from.checked_add(either(loads, 0, amount)) else {
        return Err(Kind::Overflow);
    };
    store_at(sums, rows, target, sum);
    state.held[w] = from;
    state.made[w] += 1;
    Ok(())
}

// One pick, in place: worker w loads or stores the sum of its next update, unless it is refused: then all is as it was.
// Each worker's row is remembered, whose gate is open.
pub fn pick(
    list: &[u8],
    sizes: Sizes,
    state: &mut State,
    seen: &mut [usize; MAX_WORKERS],
    sums: &mut [u8],
    w: usize,
) -> Result<(), Kind>
    requires { Head list.now sizes.rows sizes.crew sizes.count × (sizes.rows ≡ length sums.old / 8) × Seen list.now sizes.rows sizes.count state.old.made seen.old }
    ensures { PickMade (refusal_by (tables_in list.now) state.old.made w)
        (state_of state.old (signed 8 sums.old)) w (next_by (tables_in list.now) state.old.made w)
        (told result) (state_of state.new (signed 8 sums.new))
        × SumsKept sizes.rows sums.old sums.new × Seen list.now sizes.rows sizes.count state.new.made seen.new }
{
    refusal(list, sizes, &state.made, seen, w)?;
    let e = next_update(list, sizes.count, &state.made, w);
    let row = e.row;
    seen[w] = row;
    access(state, sums, sizes.rows, w, e)
}
