// The entries of the joined net on and below the diagonal.
ghost use Rattle.std.specs.Prelude.{◌≡◌, true, ℕ, suc, get_or};
ghost use Rattle.matrix.specs.Matrix.{columns_of, values_of, is_matrix};
ghost use Rattle.matrix.specs.Held.{held};
ghost use Rattle.compress.specs.Code.Entries.{listed};
ghost use Rattle.joined.specs.Code.Rows.{tenant_of, Sewing, Gathers};

use crate::lines::{PlacedRow, Row};
use crate::row::put_row;
use crate::tables::Tables;
use compress::entries::EntryList;
use matrix::limits::MAX_ROWS;
use matrix::lists::Matrix;

// Row i; an empty one past the last row.
fn row<'a>(m: &Matrix<'a>, i: usize) -> Row<'a>
    requires { is_matrix (held m.now) ≡ true }
    ensures columns { result.columns.now ≡ columns_of (held m.now) i }
    ensures values { result.values.now ≡ values_of (held m.now) i }
{
    if m.n <= i {
        return Row {
            columns: &m.columns[..0],
            values: &m.values[..0],
        };
    }
    Row {
        columns: m.columns_of(i),
        values: m.values_of(i),
    }
}

// The second net's row that a tenant is; its n where there is no tenant.
fn row_in(tenant: u32, n: usize) -> usize
    ensures none { tenant ≡ 0 → result ≡ n }
    ensures some { (k : ℕ) → tenant ≡ suc k → result ≡ k }
{
    if tenant == 0 {
        return n;
    }
    (tenant - 1) as usize
}

// The entries of n rows, into a list without entries; none if the joined net breaks a limit.
pub(crate) fn gather(
    first: &Matrix,
    second: &Matrix,
    places: &[u32],
    n: usize,
    tenants: &[u32; 2 * MAX_ROWS],
    list: &mut EntryList,
) -> Option<()>
    requires { Sewing (held first.now) (held second.now) places.now n × ((c : ℕ) → get_or tenants.now c 0 ≡ tenant_of places.now c) }
    ensures { Gathers (held first.now) (held second.now) places.now n result (listed list.new) }
{
    let mut tables = Tables {
        marks: [0; MAX_ROWS],
        held: [0; MAX_ROWS],
        seen: [0; MAX_ROWS],
        turn: 0,
    };
    list.clear();
    for i in 0..n {
        let other = row(second, row_in(tenants[i], second.n));
        let placed = PlacedRow {
            columns: other.columns,
            values: other.values,
            places,
        };
        put_row(&row(first, i), &placed, i as u32, &mut tables, list)?;
    }
    Some(())
}
