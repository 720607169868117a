// The check of a matrix in full rows: shape, limits, ascending columns, symmetry.
#![tactic(auto)]

mod passes;
mod places;

ghost use Rattle.std.specs.Prelude.{◌≡◌};
ghost use Rattle.matrix.specs.Matrix.{is_matrix};
ghost use Rattle.matrix.specs.Held.{held};

use matrix::lists::Matrix;
use passes::{Shaped, is_shaped};

// Whether the lists hold a matrix of n rows.
pub fn is_matrix(m: &Matrix) -> bool
    ensures { result ≡ is_matrix (held m.now) }
{
    if !is_shaped(m) {
        return false;
    }
    let lists = Shaped { m: *m };
    lists.is_small() && lists.is_regular()
}
