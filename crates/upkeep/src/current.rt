// The check that a kept list is the product of what came with it.
ghost use Rattle.std.specs.Prelude.{◌≡◌};
ghost use Rattle.base.specs.Verdicts.{reply_of_check};
ghost use Rattle.matrix.specs.Held.{held};
ghost use Rattle.upkeep.specs.Code.Sums.{current_reply};

use base::{Kind, Refusal};
use matrix::limits::MAX_ROWS;
use matrix::lists::Matrix;
use multiply::product;

// 5, 6, 20: whether the lists are a matrix, its displacements, and their product.
pub(crate) fn check_current(
    m: &Matrix,
    displacements: &[i32],
    forces: &[i64],
) -> Result<(), Refusal>
    ensures { reply_of_check result ≡ current_reply (held m.now) displacements.now forces.now }
{
    let mut full = [0i64; MAX_ROWS];
    product(m, displacements, &mut full)?;
    let now = &full[..m.n];
    if forces != now {
        return Err(Refusal {
            kind: Kind::NotForces,
            place: 0,
        });
    }
    Ok(())
}
