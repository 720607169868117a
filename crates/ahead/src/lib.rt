// The upper triangle for a list of picks: whole, or of those rows alone whose updates the picks can reach, as few picks
// reach few rows.
#![tactic(auto)]

ghost use Rattle.std.specs.Prelude.{◌≡◌, Bool, true, ◌||◌, List, ℕ, ◌^◌, ◌≤◌, ◌<◌, eqb, get_or, IfSome};
ghost use Rattle.matrix.specs.Held.{held};
ghost use Rattle.tables.specs.Code.Laid.{max_updates, Bounded};
ghost use Rattle.upper.specs.Code.Upper.{Positions, Sizes};
ghost use Rattle.upper.specs.Code.Triangle.{order_of};
ghost use Rattle.ahead.specs.Code.Ahead.{PartsOf, Started, With, PartsAhead};

use matrix::limits::MAX_ROWS;
use plan::MAX_WORKERS;
use tables::{MAX_UPDATES, Tables};
use upper::lay_upper;
use upper::row::lay_row;
use upper::sizes::sizes_of;
use upper::triangle::{OrderedMatrix, Rows, Triangle};

// The position of each row, and how many entries each has. Tables with room for every matrix get the whole upper
// triangle.
pub fn lay_sizes<const N: usize>(
    ordered: &OrderedMatrix,
    position: &mut [u32; MAX_ROWS],
    sizes: &mut [u32; MAX_ROWS],
    triangle: &mut Triangle<N>,
)
    requires { ((p : ℕ) → get_or triangle.old.parts p 0 ≡ 0) × ((k : ℕ) → get_or triangle.old.at k 0 ≡ 0) }
    ensures { Positions ordered.now.m.n (order_of ordered.now) position.new
        × Sizes (held ordered.now.m) (order_of ordered.now) ordered.now.m.n sizes.new
        × Started (held ordered.now.m) (order_of ordered.now) triangle.new.parts triangle.new.at triangle.new.beside }
{
    if N == MAX_UPDATES {
        lay_upper(ordered, position, sizes, triangle);
        return;
    }
    sizes_of(ordered, position, sizes);
}

// Lays the part of the row at p from a place on: the place after it, if there is room.
fn lay_part<const N: usize>(
    rows: &Rows,
    p: usize,
    place: usize,
    triangle: &mut Triangle<N>,
) -> Option<usize>
    requires { (p < rows.now.ordered.m.n) × (place ≤ N) }
    ensures { IfSome result (λ end. (end ≤ N)
        × ((some : ℕ → Bool) → PartsOf (held rows.now.ordered.m) (order_of rows.now.ordered) some place triangle.old.parts triangle.old.at triangle.old.beside
        → PartsOf (held rows.now.ordered.m) (order_of rows.now.ordered) (λ q. some q || eqb q p) end triangle.new.parts triangle.new.at triangle.new.beside)) }
{
    let end = place + rows.sizes[p] as usize;
    if N < end {
        return None;
    }
    lay_row(rows, p, place, triangle);
    triangle.parts[p] = place as u32;
    Some(end)
}

// Lays the parts of the rows in the places from one on and before another: the place after them, if there is room.
fn lay_parts<const N: usize>(
    rows: &Rows,
    row: &[u16; MAX_UPDATES],
    from: usize,
    to: usize,
    place: usize,
    triangle: &mut Triangle<N>,
) -> Option<usize>
    requires { ((k : ℕ) → get_or row.now k 0 < rows.now.ordered.m.n) × (to ≤ max_updates) × (place ≤ N) }
    ensures { IfSome result (λ end. (end ≤ N)
        × ((some : ℕ → Bool) → PartsOf (held rows.now.ordered.m) (order_of rows.now.ordered) some place triangle.old.parts triangle.old.at triangle.old.beside
        → ((more : ℕ → Bool) × With some row.now from to more
        × PartsOf (held rows.now.ordered.m) (order_of rows.now.ordered) more end triangle.new.parts triangle.new.at triangle.new.beside))) }
{
    let mut next = place;
    let mut last = MAX_ROWS;
    for k in from..to {
        let p = row[k] as usize;
        if p != last {
            next = lay_part(rows, p, next, triangle)?;
            last = p;
        }
    }
    Some(next)
}

// Lays the parts of the rows that so many picks can reach from these counts, if there is room for them. In tables with
// room for every matrix all rows have theirs.
pub fn lay_ahead<const N: usize>(
    rows: &Rows,
    tables: &Tables,
    made: &[u32; MAX_WORKERS],
    picks: usize,
    triangle: &mut Triangle<N>,
) -> bool
    requires { Started (held rows.now.ordered.m) (order_of rows.now.ordered) triangle.old.parts triangle.old.at triangle.old.beside
        × ((leaves : List ℕ) × Bounded rows.now.ordered.m.n tables.now.first.now tables.now.row.now leaves)
        × (N < max_updates → picks < 2 ^ 32) }
    ensures { (result ≡ true → PartsAhead (held rows.now.ordered.m) (order_of rows.now.ordered) tables.now.first.now tables.now.row.now made.now picks
        triangle.new.parts triangle.new.at triangle.new.beside)
        × (N ≡ max_updates → result ≡ true) }
{
    if N == MAX_UPDATES {
        return true;
    }
    let mut next = 0;
    for w in 0..MAX_WORKERS {
        let from = tables.first[w] as usize + made[w] as usize / 2;
        let to = (from + picks / 2 + 1).min(tables.first[w + 1] as usize);
        let Some(end) = lay_parts(rows, tables.row, from, to, next, triangle) else {
            return false;
        };
        next = end;
    }
    true
}
