// Passes over the rows of lent lists: the parts of the check of a matrix.
ghost use Rattle.std.specs.Prelude.{◌≡◌, true, ◌&&◌, ◌<◌, ◌≤◌, leb, length, get_or, take};
ghost use Rattle.base.specs.Lists.{all, range};
ghost use Rattle.base.specs.Integers.{within};
ghost use Rattle.matrix.specs.Limits.{max_entries, max_value};
ghost use Rattle.matrix.specs.Matrix.{lower_entries};
ghost use Rattle.matrix.specs.Code.Checks.{rises, shaped};
ghost use Rattle.matrix.specs.Held.{held};
ghost use Rattle.symmetric.specs.Code.Cursors.{regular, ended, Cursors, RowMet};

use crate::places::{is_at, is_below, past};
use matrix::limits::{MAX_ENTRIES, MAX_ROWS, MAX_VALUE, all_within};
use matrix::lists::Matrix;

// No row starts after the next.
fn starts_rise(n: usize, starts: &[u32]) -> bool
    requires { n < length starts.now }
    ensures { result ≡ all (rises starts.now) (range 0 n) }
{
    let mut rise = true;
    for i in 0..n {
        rise = rise & (starts[i] <= starts[i + 1]);
    }
    rise
}

// The number of rows, the row starts and the lengths of the lists are a matrix's.
#[tactic(auto, unfolding(matrix::specs::Code::Checks::shaped))]
pub fn is_shaped(m: &Matrix) -> bool
    ensures { result ≡ shaped (held m.now) }
{
    if m.n < 1 || MAX_ROWS < m.n || m.starts.len() <= m.n || m.starts[0] != 0 {
        return false;
    }
    let end = m.starts[m.n] as usize;
    end <= m.columns.len() && end <= m.values.len() && starts_rise(m.n, m.starts)
}

// Each cursor stands where its row ends.
fn are_ended(n: usize, starts: &[u32], cursors: &[u32]) -> bool
    requires { (n < length starts.now) × (n ≤ length cursors.now) }
    ensures { result ≡ all (ended starts.now cursors.now) (range 0 n) }
{
    let mut ends = true;
    for i in 0..n {
        ends = ends & (cursors[i] == starts[i + 1]);
    }
    ends
}

// Lists with the number of rows, the row starts and the lengths of a matrix.
#[derive(Clone, Copy)]
pub struct Shaped<'a> {
    pub m: Matrix<'a>,
    ghost shape: { shaped (held m) ≡ true },
}

impl Shaped<'_> {
    // The values of the rows are within their limit.
    pub fn is_small(&self) -> bool
        ensures { result ≡ all (within max_value) (take (get_or self.now.m.starts.now self.now.m.n 0) self.now.m.values.now) }
    {
        let m = &self.m;
        let end = m.starts[m.n] as usize;
        all_within(&m.values[..end], MAX_VALUE)
    }

    // Row i's entries below the diagonal: their columns ascend, and the mirror of each stands at the cursor of its row,
    // which then goes on. Row i's own cursor is set past its diagonal. (A while, since the diagonal ends it and the
    // place reached is used after it.)
    fn meet_row(&self, i: usize, cursors: &mut [u32]) -> bool
        requires { (i < self.now.m.n) × Cursors (held self.now.m) i cursors.old }
        ensures { RowMet (held self.now.m) i result cursors.new }
    {
        let m = &self.m;
        let end = m.starts[i + 1] as usize;
        let mut p = m.starts[i] as usize;
        let mut least: usize = 0;
        while is_below(m.columns, p, end, i) {
            let j = m.columns[p] as usize;
            if j < least {
                return false;
            }
            let q = cursors[j];
            let stop = m.starts[j + 1] as usize;
            if !is_at(m, q as usize, stop, i as u32, m.values[p]) {
                return false;
            }
            cursors[j] = q + 1;
            least = j + 1;
            p += 1;
        }
        cursors[i] = past(m.columns, p, end, i) as u32;
        true
    }

    // As is_regular, given a cursor for each row: every row is met, so an entry that no cursor has passed has no
    // mirror.
    fn meet_rows(&self, cursors: &mut [u32]) -> bool
        requires { self.now.m.n ≤ length cursors.old }
        ensures { result ≡ regular (held self.now.m) && leb (lower_entries (held self.now.m)) max_entries }
    {
        let m = &self.m;
        let mut lower: usize = 0;
        for i in 0..m.n {
            if !self.meet_row(i, cursors) {
                return false;
            }
            lower += (cursors[i] - m.starts[i]) as usize;
        }
        lower <= MAX_ENTRIES && are_ended(m.n, m.starts, cursors)
    }

    // Every row's columns ascend and are below n, every entry is mirrored, and those on and below the diagonal are not
    // too many.
    pub fn is_regular(&self) -> bool
        ensures { result ≡ regular (held self.now.m) && leb (lower_entries (held self.now.m)) max_entries }
    {
        let mut cursors = [0u32; MAX_ROWS];
        self.meet_rows(&mut cursors)
    }
}
