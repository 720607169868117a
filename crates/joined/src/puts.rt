// One entry into the list.
ghost use Rattle.std.specs.Prelude.{not, ◌&&◌, cond, [], ◌∷◌, ◌<◌, leb};
ghost use Rattle.matrix.specs.Limits.{max_rows};
ghost use Rattle.market.specs.Parse.{triplet};
ghost use Rattle.compress.specs.Code.Entries.{listed};
ghost use Rattle.joined.specs.Code.Rows.{marked, Told};

use crate::tables::Tables;
use compress::entries::EntryList;
use market::in_limits;
use matrix::limits::MAX_ENTRIES;

// Entry (i, j); none if its value is too large or there is no room.
fn put(i: u32, j: u32, v: i64, list: &mut EntryList) -> Option<()>
    ensures { Told (triplet i j v ∷ []) (listed list.old) result (listed list.new) }
{
    if !in_limits(v) {
        return None;
    }
    if MAX_ENTRIES <= list.count {
        return None;
    }
    list.push(i, j, v as i32);
    Some(())
}

// The same if it is on or below the diagonal.
pub(crate) fn put_low(i: u32, j: u32, v: i64, list: &mut EntryList) -> Option<()>
    ensures { Told (cond (leb j i) (triplet i j v ∷ []) []) (listed list.old) result (listed list.new) }
{
    if i < j {
        return Some(());
    }
    put(i, j, v, list)
}

// The same if the first net's row has no such column.
pub(crate) fn put_new(i: u32, j: u32, v: i32, tables: &Tables, list: &mut EntryList) -> Option<()>
    requires { j < max_rows }
    ensures { Told (cond (leb j i && not (marked tables.now.turn tables.now.seen j)) (triplet i j v ∷ []) []) (listed list.old) result (listed list.new) }
{
    let c = j as usize;
    if tables.seen[c] == tables.turn {
        return Some(());
    }
    put_low(i, j, v as i64, list)
}
