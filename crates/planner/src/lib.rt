// The planner: RACE's recursive colouring at a distance.
#![tactic(auto)]

use crate::whole::plan_rows;
use base::{Kind, Refusal};
use extents::Policy;
use levels::graph::Graph;
use matrix::limits::MAX_ROWS;
use matrix::lists::Matrix;
use plan::fields::{MAX_FIELDS, WIDTH};
use plan::{MAX_WORKERS, is_distance};
use symmetric::is_matrix;

mod whole;

ghost use Rattle.std.specs.Prelude.{◌≡◌, length};
ghost use Rattle.base.specs.Replies.{lent};
ghost use Rattle.base.specs.Verdicts.{reply_of};
ghost use Rattle.matrix.specs.Held.{held};
ghost use Rattle.plan.specs.Groups.{flat};
ghost use Rattle.race.specs.Planner.{plan, are_parameters, plan_reply};

// "all workers, 1 to 16"
const MOST_WORKERS: u32 = MAX_WORKERS as u32;

// Whether there may be so many workers, this share and this distance.
#[tactic(auto, using(std::proofs::lemmas::Bool::Decides::nat_tests), unfolding(race::specs::Planner::are_parameters))]
fn are_parameters(workers: u32, p: u32, k: u32) -> bool
    ensures { result ≡ are_parameters workers p k }
{
    1 <= workers && workers <= MOST_WORKERS && 50 <= p && p <= 99 && is_distance(k)
}

// The plan of a matrix at the distance k: its order, and its groups in a flat list. Both are lent for writing as two
// lists, as a caller in C has them, and the count is the answer: a struct would be made for this one call.
#[tactic(auto, unfolding(base::specs::Replies::in_turn, base::specs::Replies::lent, race::specs::Planner::plan_reply, matrix::specs::Matrix::matrix_check))]
pub fn plan(
    m: &Matrix,
    workers: u32,
    p: u32,
    k: u32,
    order: &mut [u32],
    groups: &mut [u32],
) -> Result<u32, Refusal>
    ensures reply { reply_of result ≡ plan_reply (held m.now) workers p k (length order.old) (length groups.old) }
    ensures lent_order { order.new ≡ lent (plan_reply (held m.now) workers p k (length order.old) (length groups.old))
        (plan (held m.now) workers p k).order order.old }
    ensures lent_groups { groups.new ≡ lent (plan_reply (held m.now) workers p k (length order.old) (length groups.old))
        (flat (plan (held m.now) workers p k).groups) groups.old }
{
    if !is_matrix(m) {
        return Err(Refusal {
            kind: Kind::NotMatrix,
            place: 0,
        });
    }
    if !are_parameters(workers, p, k) {
        return Err(Refusal {
            kind: Kind::BadParameter,
            place: 0,
        });
    }
    let n = m.n;
    if order.len() < n {
        return Err(Refusal {
            kind: Kind::TooShort,
            place: n as u32,
        });
    }
    let graph = Graph { m: *m };
    let policy = Policy {
        reach: k as usize,
        p,
    };
    let mut list = [0u32; MAX_ROWS];
    let mut records = [0u32; MAX_FIELDS];
    let count = plan_rows(&graph, policy, workers, &mut list[..n], &mut records);
    let made = count as usize;
    if groups.len() / WIDTH < made {
        return Err(Refusal {
            kind: Kind::TooShort,
            place: count,
        });
    }
    let size = WIDTH * made;
    order[..n].copy_from_slice(&list[..n]);
    groups[..size].copy_from_slice(&records[..size]);
    Ok(count)
}
