// Whether a schedule is short.
ghost use Rattle.std.specs.Prelude.{◌≡◌, true, ◌^◌, ◌<◌, length};

use matrix::lists::Matrix;

// Rows are found one by one, each at the cost of its columns for each of its entries. A list is short while the matrix
// has so many cells for each pick, and no row more than so many.
const CELLS: usize = 256;

const WIDE: usize = 64;

// No row has more cells than that.
fn are_narrow(m: &Matrix) -> bool
    requires { m.now.n < length m.now.starts.now }
{
    let mut narrow = true;
    for i in 0..m.n {
        narrow &= m.starts[i + 1] as usize <= m.starts[i] as usize + WIDE;
    }
    narrow
}

// Whether a schedule is short.
pub(crate) fn is_short(m: &Matrix, picks: usize) -> bool
    requires { m.now.n < length m.now.starts.now }
    ensures { result ≡ true → picks < 2 ^ 32 }
{
    if m.starts[m.n] as usize / CELLS < picks {
        return false;
    }
    are_narrow(m)
}
