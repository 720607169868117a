// How many entries each row has in the upper triangle.
ghost use Rattle.std.specs.Prelude.{◌≡◌, ℕ, ◌<◌, length, get_or};
ghost use Rattle.matrix.specs.Limits.{max_rows};
ghost use Rattle.matrix.specs.Held.{held};
ghost use Rattle.upper.specs.Code.Upper.{Positions, later_in, Sizes};
ghost use Rattle.upper.specs.Code.Triangle.{order_of};

use crate::order::positions;
use crate::triangle::OrderedMatrix;
use matrix::limits::MAX_ROWS;

// How many of these columns' rows stand after position p.
fn later_columns(columns: &[u32], position: &[u32; MAX_ROWS], p: u32) -> usize
    requires { (k : ℕ) → k < length columns.now → get_or columns.now k 0 < max_rows }
    ensures { result ≡ length (later_in position.now p columns.now) }
{
    let mut later = 0;
    for column in columns {
        later += (p < position[*column as usize]) as usize;
    }
    later
}

// For each position how many entries its row has: its diagonal one, and those of the later adjacent rows. The position
// of each row.
pub fn sizes_of(
    ordered: &OrderedMatrix,
    position: &mut [u32; MAX_ROWS],
    sizes: &mut [u32; MAX_ROWS],
)
    ensures { Positions ordered.now.m.n (order_of ordered.now) position.new
        × Sizes (held ordered.now.m) (order_of ordered.now) ordered.now.m.n sizes.new }
{
    positions(ordered.order, ordered.m.n, position);
    for p in 0..ordered.m.n {
        let row_columns = ordered.m.columns_of(ordered.order[p] as usize);
        sizes[p] = (1 + later_columns(row_columns, position, p as u32)) as u32;
    }
}
