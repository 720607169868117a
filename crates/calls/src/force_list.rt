// The force list: the sums of a finished run, from plan order into original order.
ghost use Rattle.std.specs.Prelude.{◌≡◌, true, ◌≤◌, length, take};
ghost use Rattle.matrix.specs.Limits.{max_rows};
ghost use Rattle.plan.specs.Sound.{each_once};
ghost use Rattle.run.specs.Job.{Job};
ghost use Rattle.calls.specs.Code.Scatter.{Scattered};
ghost use Rattle.calls.specs.Performed.{as_answer};
ghost use Rattle.calls.specs.Code.Listed.{Listed};

use crate::Response;
use base::{Kind, Refusal};

// The sum at each position goes to the place of its row.
fn scatter(order: &[u32], sums: &[i64], forces: &mut [i64])
    requires { (length sums.now ≤ length order.now) × (each_once (length sums.now) (take (length sums.now) order.now) ≡ true) × (length sums.now ≤ length forces.old) }
    ensures { Scattered (length sums.now) (length sums.now) (take (length sums.now) order.now) sums.now forces.old forces.new }
{
    for (p, sum) in sums.iter().enumerate() {
        forces[order[p] as usize] = *sum;
    }
}

// The forces of a run that is over, if there is room for them.
pub(crate) fn force_list(
    order: &[u32],
    is_over: bool,
    sums: &[i64],
    forces: &mut [i64],
) -> Result<Response, Refusal>
    requires { (length sums.now ≤ length order.now) × (each_once (length sums.now) (take (length sums.now) order.now) ≡ true) × (length sums.now ≤ max_rows) }
    ensures { (j : Job) → j.matrix.n ≡ length sums.now → j.plan.order ≡ take (length sums.now) order.now
        → Listed j is_over sums.now forces.old (as_answer result (take (length sums.now) forces.new)) forces.new }
{
    if !is_over {
        return Err(Refusal {
            kind: Kind::TooEarly,
            place: 0,
        });
    }
    let rows = sums.len();
    if forces.len() < rows {
        return Err(Refusal {
            kind: Kind::TooShort,
            place: rows as u32,
        });
    }
    scatter(order, sums, forces);
    Ok(Response::Forces)
}
