// How far a survey error reaches (document 02, Q-6): the amount of each row, and the shift that reaches one.
#![tactic(auto)]

mod amounts;
mod shift;

ghost use Rattle.std.specs.Prelude.{◌≡◌, length};
ghost use Rattle.base.specs.Replies.{lent};
ghost use Rattle.base.specs.Verdicts.{reply_of};
ghost use Rattle.matrix.specs.Held.{held};
ghost use Rattle.survey.specs.Survey.{amounts_of, written_shift, survey_reply};

use amounts::put_amounts;
use base::{Kind, Refusal};
use matrix::limits::{MAX_DISPLACEMENT, all_within};
use matrix::lists::Matrix;
use multiply::check_displacements;
use shift::put_shift;
use symmetric::is_matrix;

// "t from 0 to 1,000,000"
const MAX_ERROR: u32 = 1000000;

// The amount of each row; and the shift that reaches the row's amount, where every displacement has room for it: 1 says
// that it was written, 0 that it was not.
#[tactic(auto, unfolding(base::specs::Replies::in_turn, base::specs::Replies::lent, matrix::specs::Matrix::matrix_check, crate::specs::Survey::survey_reply))]
pub fn survey(
    m: &Matrix,
    displacements: &[i32],
    t: u32,
    row: u32,
    amounts: &mut [i64],
    shift: &mut [i32],
) -> Result<u32, Refusal>
    ensures reply { reply_of result ≡ survey_reply (held m.now) displacements.now t row (length amounts.old) (length shift.old) }
    ensures lent_amounts { amounts.new ≡ lent (survey_reply (held m.now) displacements.now t row (length amounts.old) (length shift.old)) (amounts_of (held m.now) t) amounts.old }
    ensures lent_shift { shift.new ≡ lent (survey_reply (held m.now) displacements.now t row (length amounts.old) (length shift.old)) (written_shift (held m.now) displacements.now t row) shift.old }
{
    if !is_matrix(m) {
        return Err(Refusal {
            kind: Kind::NotMatrix,
            place: 0,
        });
    }
    let n = m.n as u32;
    check_displacements(n, displacements)?;
    if MAX_ERROR < t || n <= row {
        return Err(Refusal {
            kind: Kind::BadSurvey,
            place: 0,
        });
    }
    if amounts.len() < m.n {
        return Err(Refusal {
            kind: Kind::TooShort,
            place: n,
        });
    }
    if !all_within(displacements, MAX_DISPLACEMENT - t) {
        put_amounts(m, t, amounts);
        return Ok(0);
    }
    if shift.len() < m.n {
        return Err(Refusal {
            kind: Kind::TooShort,
            place: n,
        });
    }
    put_amounts(m, t, amounts);
    let i = row as usize;
    put_shift(m.columns_of(i), m.values_of(i), t, m.n, shift);
    Ok(1)
}
