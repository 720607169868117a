// Marks on the rows that are some joins away from a group.
ghost use Rattle.std.specs.Prelude.{List, map, ℕ, ◌<◌, length, get_or};
ghost use Rattle.base.specs.Lists.{concat};
ghost use Rattle.matrix.specs.Matrix.{Matrix};
ghost use Rattle.matrix.specs.Held.{held};
ghost use Rattle.apart.specs.Code.Marks.{closed, touched_by, Opened, Widened};

use crate::marks::{Marks, Pen, touch_row};
use crate::net::Net;

// How far from a row the rows are that are touched with it.
pub trait Reach {
    ghost reached: { Matrix → ℕ → List ℕ };

    // Row u and those within reach get the pen's mark, unless one has another child's.
    fn touch(net: &Net, marks: &mut Marks, u: usize, pen: Pen) -> bool
        requires { Opened (held net.now.m) pen.mine marks.old × (u < net.now.m.n) }
        ensures { Widened (held net.now.m) pen.low pen.mine (reached (held net.now.m) u) marks.old marks.new result };
}

// One join, from a row that is touched once.
pub struct Near;

impl Reach for Near {
    ghost reached = { closed };

    fn touch(net: &Net, marks: &mut Marks, u: usize, pen: Pen) -> bool {
        touch_row(net, &mut marks.given, u, pen)
    }
}

// One join, from a row that may be touched again: one whose mark in done is the pen's has touched its rows before.
struct Once;

impl Reach for Once {
    ghost reached = { closed };

    fn touch(net: &Net, marks: &mut Marks, u: usize, pen: Pen) -> bool {
        if marks.done[u] == pen.mine {
            return true;
        }
        marks.done[u] = pen.mine;
        touch_row(net, &mut marks.given, u, pen)
    }
}

// Two joins.
pub struct Wide;

impl Reach for Wide {
    ghost reached = { λ m u. touched_by m (closed m u) };

    fn touch(net: &Net, marks: &mut Marks, u: usize, pen: Pen) -> bool {
        Once::touch(net, marks, u, pen) && touch_each::<Once>(net, marks, net.m.columns_of(u), pen)
    }
}

// The rows of a list and those within reach of them get the pen's mark, unless one has another child's.
pub fn touch_each<R: Reach>(net: &Net, marks: &mut Marks, rows: &[u32], pen: Pen) -> bool
    requires { Opened (held net.now.m) pen.mine marks.old
        × ((j : ℕ) → j < length rows.now → get_or rows.now j 0 < net.now.m.n) }
    ensures { Widened (held net.now.m) pen.low pen.mine (concat (map (R.reached (held net.now.m)) rows.now)) marks.old marks.new result }
{
    for u in rows {
        if !R::touch(net, marks, *u as usize, pen) {
            return false;
        }
    }
    true
}
