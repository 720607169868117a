// Where an entry is stored.
ghost use Rattle.std.specs.Prelude.{◌≡◌, true, false, ◌<◌, ◌==◌, position, MatchOption};
ghost use Rattle.base.specs.Lists.{is_in};
ghost use Rattle.matrix.specs.Matrix.{columns_of, is_matrix};
ghost use Rattle.matrix.specs.Code.Checks.{shaped};
ghost use Rattle.matrix.specs.Held.{held};
ghost use Rattle.upkeep.specs.Upkeep.{entry_place};
ghost use Rattle.upkeep.specs.Code.Sums.{Placed};

use matrix::lists::Matrix;

// Where v stands in a list.
fn position(list: &[u32], v: u32) -> Option<usize>
    ensures { result ≡ position (λ x. x == v) list.now }
{
    list.iter().position(|x| *x == v)
}

// The place of column j of row i among all columns, if it is stored.
fn place(m: &Matrix, i: usize, j: u32) -> Option<usize>
    requires { (shaped (held m.now) ≡ true) × (i < m.now.n) }
    ensures { MatchOption result (is_in (columns_of (held m.now) i) j ≡ false) (λ p. (is_in (columns_of (held m.now) i) j ≡ true) × (p ≡ entry_place (held m.now) i j)) }
{
    let k = position(m.columns_of(i), j)?;
    Some(m.starts[i] as usize + k)
}

// The places of entry (i, j) and of its mirror, if they are stored. (One function here asks for a matrix and one for
// its shape: a type with that fact would be made at one call and taken apart in it.)
pub(crate) fn places(m: &Matrix, i: u32, j: u32) -> Option<(usize, usize)>
    requires { is_matrix (held m.now) ≡ true }
    ensures { MatchOption result (is_in (columns_of (held m.now) i) j ≡ false) (λ at. Placed (held m.now) i j at.0 at.1) }
{
    if m.n <= i as usize {
        return None;
    }
    let p = place(m, i as usize, j)?;
    let q = place(m, j as usize, i)?;
    Some((p, q))
}
