// Where rows stand in the order, what lists are in that order, and the upper triangle of the matrix in it.
#![tactic(auto)]

pub mod order;
mod parts;
pub mod row;
pub mod sizes;
pub mod triangle;

ghost use Rattle.std.specs.Prelude.{◌≡◌, List, ℕ, ◌+◌, ◌<◌, get_or};
ghost use Rattle.matrix.specs.Held.{held};
ghost use Rattle.tables.specs.Code.Laid.{max_updates};
ghost use Rattle.upper.specs.Code.Upper.{Positions, Sizes, Parts, Begun, Upper, UpperLaid};
ghost use Rattle.upper.specs.Code.Triangle.{order_of};

use matrix::limits::MAX_ROWS;
use order::positions;
use parts::{begin_parts, part_sizes};
use triangle::{OrderedMatrix, Triangle};

// Position q begins its own part, and joins the part of each row before it that is adjacent to its row. The next place
// of a column's row is written: it counts once the place after it is the next, which that of q's own is in the end.
fn join<const N: usize>(
    ordered: &OrderedMatrix,
    position: &[u32; MAX_ROWS],
    q: usize,
    next: &mut [u32; MAX_ROWS],
    triangle: &mut Triangle<N>,
)
    requires { Positions ordered.now.m.n (order_of ordered.now) position.now × (q < ordered.now.m.n)
        × ((begins : List ℕ) × Parts (held ordered.now.m) (order_of ordered.now) begins
        × Upper (held ordered.now.m) (order_of ordered.now) begins q next.old triangle.old.at triangle.old.beside) }
    ensures { ((begins : List ℕ) → Parts (held ordered.now.m) (order_of ordered.now) begins
        → Upper (held ordered.now.m) (order_of ordered.now) begins q next.old triangle.old.at triangle.old.beside
        → Upper (held ordered.now.m) (order_of ordered.now) begins (q + 1) next.new triangle.new.at triangle.new.beside)
        × (triangle.new.parts ≡ triangle.old.parts) }
{
    let row = ordered.order[q] as usize;
    let own = next[q] as usize;
    triangle.at[own] = q as u16;
    triangle.beside[own] = 0;
    let row_columns = ordered.m.columns_of(row);
    let row_values = ordered.m.values_of(row);
    for (k, column) in row_columns.iter().enumerate() {
        let p = position[*column as usize] as usize;
        if q < p {
            continue;
        }
        let place = next[p] as usize;
        triangle.at[place] = q as u16;
        triangle.beside[place] = row_values[k];
        next[p] = place as u32 + (p < q) as u32;
    }
    next[q] = own as u32 + 1;
}

// Every position joins, in turn. Each row's next place is where its part begins, then where it ends.
fn join_all<const N: usize>(
    ordered: &OrderedMatrix,
    position: &[u32; MAX_ROWS],
    next: &mut [u32; MAX_ROWS],
    triangle: &mut Triangle<N>,
)
    requires { Positions ordered.now.m.n (order_of ordered.now) position.now
        × Begun ordered.now.m.n ordered.now.m.starts.now (order_of ordered.now) next.old
        × Upper (held ordered.now.m) (order_of ordered.now) next.old 0 next.old triangle.old.at triangle.old.beside }
    ensures { Parts (held ordered.now.m) (order_of ordered.now) next.old
        × Upper (held ordered.now.m) (order_of ordered.now) next.old ordered.now.m.n next.new triangle.new.at triangle.new.beside
        × (triangle.new.parts ≡ triangle.old.parts) }
{
    for q in 0..ordered.m.n {
        join(ordered, position, q, next, triangle);
    }
}

// Where the parts begin, copied: by a loop, which asks C for no `memmove`, as `copy_from_slice` and an assignment do.
fn copy_parts(parts: &[u32; MAX_ROWS], sizes: &mut [u32; MAX_ROWS])
    ensures { sizes.new ≡ parts.now }
{
    for (p, part) in parts.iter().enumerate() {
        sizes[p] = *part;
    }
}

// The position of each row, how many entries each has, and the upper triangle: for each row its own position and the
// later adjacent ones, beside their entries, from where its part begins. There is room for that of every matrix.
pub fn lay_upper<const N: usize>(
    ordered: &OrderedMatrix,
    position: &mut [u32; MAX_ROWS],
    sizes: &mut [u32; MAX_ROWS],
    triangle: &mut Triangle<N>,
)
    requires { (N ≡ max_updates) × ((k : ℕ) → get_or triangle.old.at k 0 ≡ 0) }
    ensures { Positions ordered.now.m.n (order_of ordered.now) position.new
        × Sizes (held ordered.now.m) (order_of ordered.now) ordered.now.m.n sizes.new
        × UpperLaid (held ordered.now.m) (order_of ordered.now) triangle.new.parts triangle.new.at triangle.new.beside }
{
    positions(ordered.order, ordered.m.n, position);
    begin_parts(ordered, &mut triangle.parts);
    copy_parts(&triangle.parts, sizes);
    join_all(ordered, position, sizes, triangle);
    part_sizes(ordered.m.n, &triangle.parts, sizes);
}

// .. where the positions are not asked for.
pub fn upper<const N: usize>(
    ordered: &OrderedMatrix,
    sizes: &mut [u32; MAX_ROWS],
    triangle: &mut Triangle<N>,
)
    requires { (N ≡ max_updates) × ((k : ℕ) → get_or triangle.old.at k 0 ≡ 0) }
    ensures { Sizes (held ordered.now.m) (order_of ordered.now) ordered.now.m.n sizes.new
        × UpperLaid (held ordered.now.m) (order_of ordered.now) triangle.new.parts triangle.new.at triangle.new.beside }
{
    let mut position = [0u32; MAX_ROWS];
    lay_upper(ordered, &mut position, sizes, triangle);
}
