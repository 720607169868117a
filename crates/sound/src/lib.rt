// The check that a plan is sound for a matrix.
#![tactic(auto)]

mod below;
#[cfg(test)]
mod tests;

ghost use Rattle.std.specs.Prelude.{◌≡◌, true, List, ◌≤◌, ℤ};
ghost use Rattle.base.specs.Verdicts.{reply_of_check};
ghost use Rattle.matrix.specs.Matrix.{is_matrix, matrix_of};
ghost use Rattle.matrix.specs.Held.{held};
ghost use Rattle.plan.specs.Groups.{group_of};
ghost use Rattle.plan.specs.Sound.{max_distance, is_plan, is_plan_at, check_reply};
ghost use Rattle.apart.specs.Code.Net.{IsGraph};
ghost use Rattle.sound.specs.Code.Whole.{is_whole};

use apart::net::{Net, Subject};
use base::{Kind, Refusal};
use below::all_sound;
use matrix::lists::Matrix;
use plan::fields::{Colour, Group, WIDTH};
use plan::lists::Plan;
use plan::{MAX_GROUPS, MAX_WORKERS, is_distance};
use shape::nesting::depth_first;
use shape::order::each_once;
use symmetric::is_matrix;

// The record is the whole of n rows.
#[tactic(auto, using(std::proofs::lemmas::Bool::Decides::nat_tests), unfolding(crate::specs::Code::Whole::is_whole))]
fn is_whole(g: Group, n: usize) -> bool
    ensures { result ≡ is_whole n (group_of g) }
{
    if g.start != 0 || g.length as usize != n || g.first != 0 {
        return false;
    }
    if g.colour != Colour::Whole as u32 || g.parent != 0 {
        return false;
    }
    if g.depth != 0 {
        return false;
    }
    1 <= g.workers && g.workers as usize <= MAX_WORKERS
}

// Whether the lists hold a plan that is sound at the distance k for the matrix.
fn is_plan_at(m: &Matrix, plan: &Plan, k: usize) -> bool
    requires { IsGraph (held m.now) × (k ≤ max_distance) }
    ensures { result ≡ is_plan_at k (held m.now) plan.now.order.now plan.now.groups.now plan.now.count }
{
    if plan.order.len() < m.n || plan.count < 1 || MAX_GROUPS < plan.count {
        return false;
    }
    if plan.groups.len() < WIDTH * plan.count {
        return false;
    }
    if !is_whole(plan.record(0), m.n) {
        return false;
    }
    if !each_once(plan.order, m.n) {
        return false;
    }
    if !depth_first(plan) {
        return false;
    }
    all_sound(&Subject {
        net: Net { m: *m },
        plan: *plan,
        k,
    })
}

// "The force run still checks at 2"
const RUN_DISTANCE: usize = 2;

// Whether they hold a plan that is sound, as a run asks, whatever the values: the rows are those of some matrix.
pub fn is_plan(m: &Matrix, plan: &Plan) -> bool
    requires { (values : List ℤ) × (is_matrix (matrix_of m.now.n m.now.starts.now m.now.columns.now values) ≡ true) }
    ensures { (values : List ℤ) → result ≡ is_plan (matrix_of m.now.n m.now.starts.now m.now.columns.now values)
        plan.now.order.now plan.now.groups.now plan.now.count }
{
    is_plan_at(m, plan, RUN_DISTANCE)
}

// The check of a plan at the distance k: 5 if the lists are no matrix, 7 if k is no distance, 8 if the plan is not
// sound at k.
pub fn check(m: &Matrix, plan: &Plan, k: u32) -> Result<(), Refusal>
    ensures { reply_of_check result ≡ check_reply (held m.now) plan.now.order.now plan.now.groups.now plan.now.count k }
{
    if !is_matrix(m) {
        return Err(Refusal {
            kind: Kind::NotMatrix,
            place: 0,
        });
    }
    if !is_distance(k) {
        return Err(Refusal {
            kind: Kind::BadParameter,
            place: 0,
        });
    }
    if !is_plan_at(m, plan, k as usize) {
        return Err(Refusal {
            kind: Kind::Unsound,
            place: 0,
        });
    }
    Ok(())
}
