// The parts of the rows in the tables of the upper triangle: where each begins, and how many entries it has.
ghost use Rattle.std.specs.Prelude.{◌≡◌, ℕ, ◌-◌, ◌≤◌, ◌<◌, get_or};
ghost use Rattle.matrix.specs.Limits.{max_rows};
ghost use Rattle.upper.specs.Code.Upper.{Begun};
ghost use Rattle.upper.specs.Code.Triangle.{order_of};

use crate::triangle::OrderedMatrix;
use matrix::limits::MAX_ROWS;

// For each position where the part of its row begins: with room for all its entries, so that none need be counted.
pub(crate) fn begin_parts(ordered: &OrderedMatrix, parts: &mut [u32; MAX_ROWS])
    ensures { Begun ordered.now.m.n ordered.now.m.starts.now (order_of ordered.now) parts.new }
{
    for p in 0..ordered.m.n {
        let row = ordered.order[p];
        parts[p] = ordered.m.starts[row as usize] + row;
    }
}

// How many entries each part has: where it ends becomes how far that is from where it begins.
pub(crate) fn part_sizes(n: usize, parts: &[u32; MAX_ROWS], ends: &mut [u32; MAX_ROWS])
    requires { (n ≤ max_rows) × ((p : ℕ) → p < n → get_or parts.now p 0 ≤ get_or ends.old p 0) }
    ensures { (p : ℕ) → p < n → get_or ends.new p 0 ≡ get_or ends.old p 0 - get_or parts.now p 0 }
{
    for p in 0..n {
        ends[p] -= parts[p];
    }
}
