// Marks on the rows that a group touches: its rows and the rows adjacent to them.
ghost use Rattle.std.specs.Prelude.{[], ◌∷◌, ℕ, ◌<◌, length, get_or};
ghost use Rattle.apart.specs.Code.Marks.{closed, Touched};
ghost use Rattle.matrix.specs.Limits.{max_rows};
ghost use Rattle.matrix.specs.Held.{held};

use crate::net::Net;
use matrix::limits::MAX_ROWS;

// The marks of the rows, and of those that have touched the rows adjacent to them.
#[derive(Drop)]
pub struct Marks {
    pub given: [u32; MAX_ROWS],
    pub done: [u32; MAX_ROWS],
}

// What a child marks with: its mark, and the one above which marks are of the children that it is compared with.
#[derive(Clone, Copy)]
pub struct Pen {
    pub low: u32,
    pub mine: u32,
}

// Row z gets the pen's mark, unless it has another child's. Many rows have it already.
fn touch(marks: &mut [u32; MAX_ROWS], z: usize, pen: Pen) -> bool
    requires { z < max_rows }
    ensures { Touched pen.low pen.mine (z ∷ []) marks.old marks.new result }
{
    let m = marks[z];
    if m == pen.mine {
        return true;
    }
    if pen.low < m {
        return false;
    }
    marks[z] = pen.mine;
    true
}

// So do the rows of a list, two a turn: a turn for each is slower where the linker puts it across a line of the cache.
pub fn touch_all(marks: &mut [u32; MAX_ROWS], rows: &[u32], pen: Pen) -> bool
    requires { (j : ℕ) → j < length rows.now → get_or rows.now j 0 < max_rows }
    ensures { Touched pen.low pen.mine rows.now marks.old marks.new result }
{
    let mut j = 0;
    while j + 1 < rows.len() {
        if !touch(marks, rows[j] as usize, pen) {
            return false;
        }
        if !touch(marks, rows[j + 1] as usize, pen) {
            return false;
        }
        j += 2;
    }
    if j < rows.len() {
        return touch(marks, rows[j] as usize, pen);
    }
    true
}

// So do row u and the rows adjacent to it.
pub fn touch_row(net: &Net, marks: &mut [u32; MAX_ROWS], u: usize, pen: Pen) -> bool
    requires { u < net.now.m.n }
    ensures { Touched pen.low pen.mine (closed (held net.now.m) u) marks.old marks.new result }
{
    if !touch(marks, u, pen) {
        return false;
    }
    touch_all(marks, net.m.columns_of(u), pen)
}
