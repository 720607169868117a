// What stands at a place of a row that ends at `end`.
ghost use Rattle.std.specs.Prelude.{◌≡◌, ◌&&◌, ◌+◌, ◌≤◌, pos, length, get_or, eqb, ltb};
ghost use Rattle.base.specs.Lists.{bit};
ghost use Rattle.base.specs.Integers.{same};

use matrix::lists::Matrix;

// Place p is before the end, and holds a column below j.
pub(crate) fn is_below(columns: &[u32], p: usize, end: usize, j: usize) -> bool
    requires { end ≤ length columns.now }
    ensures { result ≡ ltb p end && ltb (get_or columns.now p 0) j }
{
    p < end && (columns[p] as usize) < j
}

// The place after p if it is before the end and holds column j; else p.
pub(crate) fn past(columns: &[u32], p: usize, end: usize, j: usize) -> usize
    requires { end ≤ length columns.now }
    ensures { result ≡ p + bit (ltb p end && eqb (get_or columns.now p 0) j) }
{
    if p < end && columns[p] as usize == j {
        p + 1
    } else {
        p
    }
}

// Place p is before the end, and holds column j and the value v.
pub(crate) fn is_at(m: &Matrix, p: usize, end: usize, j: u32, v: i32) -> bool
    requires { (end ≤ length m.now.columns.now) × (end ≤ length m.now.values.now) }
    ensures { result ≡ ltb p end && eqb (get_or m.now.columns.now p 0) j && same (get_or m.now.values.now p (pos 0)) v }
{
    p < end && m.columns[p] == j && m.values[p] == v
}
