// What the upper triangle is laid from, and what it is laid in.
ghost use Rattle.std.specs.Prelude.{◌≡◌, ◌≤◌, length, take};
ghost use Rattle.matrix.specs.Limits.{max_rows};
ghost use Rattle.matrix.specs.Held.{held};
ghost use Rattle.tables.specs.Code.Laid.{max_updates};
ghost use Rattle.upper.specs.Code.Upper.{Positions, Lent, Sizes};

use matrix::limits::MAX_ROWS;
use matrix::lists::Matrix;

// A matrix, and an order of its rows.
#[derive(Clone, Copy)]
pub struct OrderedMatrix<'a> {
    pub m: Matrix<'a>,
    pub order: &'a [u32],
    ghost lent: { Lent m.n m.starts.now m.columns.now m.values.now order.now },
}

// .. with the position of each row, and with how many entries the row at each position has in the upper triangle.
#[derive(Clone, Copy)]
pub struct Rows<'a> {
    pub ordered: OrderedMatrix<'a>,
    pub position: &'a [u32; MAX_ROWS],
    pub sizes: &'a [u32; MAX_ROWS],
    ghost positions: { Positions ordered.m.n (take ordered.m.n ordered.order.now) position.now },
    ghost sizes_are: { Sizes (held ordered.m) (take ordered.m.n ordered.order.now) ordered.m.n sizes.now },
}

// The upper triangle in plan order, or room for it: where the part of each row begins, and the positions and entries of
// the parts. There is room for an entry of each row, and no more than every matrix needs. A function that reads none of
// the arrays knows their lengths by the invariant alone.
#[derive(Drop)]
pub struct Triangle<const N: usize> {
    pub parts: [u32; MAX_ROWS],
    pub at: [u16; N],
    pub beside: [i32; N],
    ghost lengths: { (length parts ≡ max_rows) × (length at ≡ N) × (length beside ≡ N) },
    ghost some: { max_rows ≤ N },
    ghost most: { N ≤ max_updates },
}
