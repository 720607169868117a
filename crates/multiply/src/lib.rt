// The check of displacements, and the product of a matrix and displacements on one core.
#![tactic(auto)]

pub mod limits;
mod row;

ghost use Rattle.std.specs.Prelude.{◌≡◌, [], ◌∷◌, ◌++◌, length, drop};
ghost use Rattle.base.specs.Replies.{accepted, refused, in_turn, lent};
ghost use Rattle.base.specs.Verdicts.{reply_of, reply_of_check};
ghost use Rattle.matrix.specs.Matrix.{displacement_check};
ghost use Rattle.matrix.specs.Product.{product, product_reply};
ghost use Rattle.matrix.specs.Held.{held};
ghost use Rattle.multiply.specs.Code.Loaded.{Loaded};

use base::{Kind, Refusal};
use limits::first_past;
use matrix::limits::{MAX_DISPLACEMENT, all_within};
use matrix::lists::Matrix;
use symmetric::is_matrix;

// Whether there are n displacements, each within its limit. (n has 32 bits, since a refusal's place has.)
#[tactic(auto, unfolding(base::specs::Replies::in_turn, matrix::specs::Matrix::displacement_check, matrix::specs::Matrix::are_displacements))]
pub fn check_displacements(n: u32, displacements: &[i32]) -> Result<(), Refusal>
    ensures { reply_of_check result ≡ in_turn refused (displacement_check n displacements.now ∷ []) (accepted 0) }
{
    if displacements.len() != n as usize {
        return Err(Refusal {
            kind: Kind::BadDisplacement,
            place: 0,
        });
    }
    if !all_within(displacements, MAX_DISPLACEMENT) {
        let place = first_past(displacements, MAX_DISPLACEMENT) as u32;
        return Err(Refusal {
            kind: Kind::BadDisplacement,
            place,
        });
    }
    Ok(())
}

// The force of each row, in the first n places.
fn fill(m: &Matrix, displacements: &[i32], forces: &mut [i64])
    requires { Loaded (held m.now) displacements.now (length forces.old) }
    ensures { forces.new ≡ product (held m.now) displacements.now ++ drop m.now.n forces.old }
{
    for i in 0..m.n {
        forces[i] = row::force(m.columns_of(i), m.values_of(i), displacements);
    }
}

// The product of the matrix and the displacements, into forces.
#[tactic(auto, unfolding(base::specs::Replies::in_turn, base::specs::Replies::lent, matrix::specs::Product::product_reply, matrix::specs::Matrix::matrix_check))]
pub fn product(m: &Matrix, displacements: &[i32], forces: &mut [i64]) -> Result<u32, Refusal>
    ensures reply { reply_of result ≡ product_reply (held m.now) displacements.now (length forces.old) }
    ensures lent_forces { forces.new ≡ lent (product_reply (held m.now) displacements.now (length forces.old)) (product (held m.now) displacements.now) forces.old }
{
    if !is_matrix(m) {
        return Err(Refusal {
            kind: Kind::NotMatrix,
            place: 0,
        });
    }
    let n = m.n as u32;
    check_displacements(n, displacements)?;
    if forces.len() < m.n {
        return Err(Refusal {
            kind: Kind::TooShort,
            place: n,
        });
    }
    fill(m, displacements, forces);
    Ok(0)
}
