// The entries of one row of the joined net, on and below the diagonal.
ghost use Rattle.std.specs.Prelude.{◌≡◌, ◌+◌, ◌<◌, ◌+ℤ◌, length};
ghost use Rattle.matrix.specs.Limits.{max_rows};
ghost use Rattle.compress.specs.Code.Entries.{listed};
ghost use Rattle.joined.specs.Code.Rows.{from_first, from_second, row_entries, marked, held_at, Before, Told};

use crate::lines::{PlacedRow, Row};
use crate::puts::{put_low, put_new};
use crate::tables::Tables;
use compress::entries::EntryList;

// The sum of two values.
fn plus(a: i32, b: i32) -> i64
    ensures { result ≡ a +ℤ b }
{
    a as i64 + b as i64
}

// The first net's entries of row i, with what is held for their columns.
fn put_first(row: &Row, i: u32, tables: &Tables, list: &mut EntryList) -> Option<()>
    ensures { Told (from_first i row.now.columns.now row.now.values.now (held_at tables.now.turn tables.now.marks tables.now.held) (length row.now.columns.now)) (listed list.old) result (listed list.new) }
{
    for k in 0..row.columns.len() {
        let j = row.columns[k];
        let v = plus(row.values[k], tables.held_at(j));
        put_low(i, j, v, list)?;
    }
    Some(())
}

// The second net's entries of row i at their places, where the first net has none.
fn put_second(row: &PlacedRow, i: u32, tables: &Tables, list: &mut EntryList) -> Option<()>
    ensures { Told (from_second i row.now.places.now row.now.columns.now row.now.values.now (marked tables.now.turn tables.now.seen) (length row.now.columns.now)) (listed list.old) result (listed list.new) }
{
    for k in 0..row.columns.len() {
        let c = row.columns[k] as usize;
        let j = row.places[c];
        put_new(i, j, row.values[k], tables, list)?;
    }
    Some(())
}

// The entries of row i, of the rows of both nets; none if the joined net breaks a limit. The tables are those of the
// rows before it.
pub(crate) fn put_row(
    first: &Row,
    second: &PlacedRow,
    i: u32,
    tables: &mut Tables,
    list: &mut EntryList,
) -> Option<()>
    requires { (i < max_rows) × Before (i + 1) tables.old.marks × Before (i + 1) tables.old.seen }
    ensures told { Told (row_entries i second.now.places.now first.now.columns.now first.now.values.now second.now.columns.now second.now.values.now) (listed list.old) result (listed list.new) }
    ensures marks { Before (i + 1 + 1) tables.new.marks }
    ensures seen { Before (i + 1 + 1) tables.new.seen }
{
    tables.hold(second, i + 1);
    tables.see(first);
    put_first(first, i, tables, list)?;
    put_second(second, i, tables, list)
}
