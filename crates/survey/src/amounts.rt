// The amount of each row: t times the sum of its values without sign.
ghost use Rattle.std.specs.Prelude.{◌≡◌, ◌++◌, ◌^◌, ◌<◌, pos, length, drop};
ghost use Rattle.matrix.specs.Held.{held};
ghost use Rattle.survey.specs.Survey.{amounts_of};
ghost use Rattle.survey.specs.Code.Rows.{sizes_to, Amounting};

use matrix::lists::Matrix;

// The sum of values without sign.
fn sizes(values: &[i32]) -> i64
    requires { sizes_to values.now (length values.now) < 2 ^ 63 }
    ensures { result ≡ pos (sizes_to values.now (length values.now)) }
{
    let mut sum: i64 = 0;
    for v in values {
        sum += v.unsigned_abs() as i64;
    }
    sum
}

// The amounts, in the first n places.
pub(crate) fn put_amounts(m: &Matrix, t: u32, out: &mut [i64])
    requires { Amounting (held m.now) t (length out.old) }
    ensures { out.new ≡ amounts_of (held m.now) t ++ drop m.now.n out.old }
{
    let times = t as i64;
    for i in 0..m.n {
        out[i] = times * sizes(m.values_of(i));
    }
}
