// "The plan's groups are a list of records": here in a lent slice of structs. The work is done on flat lists; two
// functions copy the records between the two.
#![tactic(auto)]

ghost use Rattle.std.specs.Prelude.{◌≡◌, map, ◌*◌, ◌≤◌, length};
ghost use Rattle.base.specs.Replies.{lent};
ghost use Rattle.base.specs.Verdicts.{reply_of, reply_of_check};
ghost use Rattle.matrix.specs.Held.{held};
ghost use Rattle.plan.specs.Groups.{width, flat, records, group_of};
ghost use Rattle.plan.specs.Sound.{max_groups, check_reply};
ghost use Rattle.race.specs.Planner.{plan, plan_reply};
ghost use Rattle.groups.specs.Structs.{of_group};
ghost use Rattle.groups.specs.Code.Flattened.{Flattened};

use base::Refusal;
use matrix::lists::Matrix;
use plan::MAX_GROUPS;
use plan::fields::{Group, MAX_FIELDS, WIDTH, get, put};
use plan::lists::Plan;

// The flat list of the groups, of the first of them if a plan may not have as many.
fn flatten(groups: &[Group]) -> [u32; MAX_FIELDS]
    ensures { Flattened groups.now result }
{
    let mut numbers = [0u32; MAX_FIELDS];
    for k in 0..groups.len().min(MAX_GROUPS) {
        put(&mut numbers, k, groups[k]);
    }
    numbers
}

// Writes the first groups of a flat list to a slice, as many as it has places.
fn gather(numbers: &[u32; MAX_FIELDS], groups: &mut [Group])
    requires { length groups.old ≤ max_groups }
    ensures { groups.new ≡ map of_group (records (length groups.old) numbers.now) }
{
    for (k, group) in groups.iter_mut().enumerate() {
        *group = get(numbers, k);
    }
}

// The check of a plan at the distance k: 5 if the lists are no matrix, 7 if k is no distance, 8 if the plan is not
// sound at k. The two lists are no one struct, here and in the next call, which lends both for writing: they are their
// caller's, and a struct of them would be made for this one call.
pub fn check(m: &Matrix, order: &[u32], groups: &[Group], k: u32) -> Result<(), Refusal>
    ensures { reply_of_check result ≡ check_reply (held m.now) order.now (flat (map group_of groups.now)) (length groups.now) k }
{
    let numbers = flatten(groups);
    let plan = Plan {
        order,
        groups: &numbers,
        count: groups.len(),
    };
    sound::check(m, &plan, k)
}

// The plan of a matrix: its order, and its groups.
pub fn plan(
    m: &Matrix,
    workers: u32,
    p: u32,
    k: u32,
    order: &mut [u32],
    groups: &mut [Group],
) -> Result<u32, Refusal>
    ensures reply { reply_of result ≡ plan_reply (held m.now) workers p k (length order.old) (width * length groups.old) }
    ensures lent_order { order.new ≡ lent (plan_reply (held m.now) workers p k (length order.old) (width * length groups.old))
        (plan (held m.now) workers p k).order order.old }
    ensures lent_groups { groups.new ≡ lent (plan_reply (held m.now) workers p k (length order.old) (width * length groups.old))
        (map of_group (plan (held m.now) workers p k).groups) groups.old }
{
    let mut numbers = [0u32; MAX_FIELDS];
    let size = WIDTH * groups.len().min(MAX_GROUPS);
    let count = planner::plan(m, workers, p, k, order, &mut numbers[..size])?;
    gather(&numbers, &mut groups[..count as usize]);
    Ok(count)
}
