// How many updates each worker has: where they begin and end, if each worker's stand after those of the workers before
// it.
ghost use Rattle.std.specs.Prelude.{◌≡◌, ℕ, suc, ◌+◌, ◌≤◌, length, get_or};
ghost use Rattle.base.specs.Lists.{sum_below};
ghost use Rattle.plan.specs.Sound.{max_workers};
ghost use Rattle.run.specs.Job.{Job};
ghost use Rattle.run.specs.Updates.{up_to};
ghost use Rattle.tables.specs.Code.Laid.{max_updates, Counted};
ghost use Rattle.layout.specs.Code.UpdateTable.{Sized, Planned, Stretch, Numbers};
ghost use Rattle.layout.specs.Code.SizedPlan.{PlannedBy};

use crate::leaf::is_leaf;
use crate::updates::SizedPlan;
use matrix::limits::MAX_ROWS;
use plan::MAX_WORKERS;
use plan::fields::{WIDTH, get};
use tables::FIRSTS;

// How many updates the rows of a leaf make: one each for the diagonal, two for each other entry in the upper triangle.
fn leaf_updates(sizes: &[u32; MAX_ROWS], start: usize, end: usize) -> usize
    requires { (j : Job) × (i : ℕ) × (w : ℕ) × Sized j sizes.now × Stretch j i w start end }
    ensures { (j : Job) (i w : ℕ) → Sized j sizes.now → Stretch j i w start end → length (up_to j w start) + result ≡ length (up_to j w end) }
{
    let mut updates = 0;
    for p in start..end {
        updates += 2 * sizes[p] as usize - 1;
    }
    updates
}

// How many each worker has, at the place after its own.
fn count_updates(plan: &SizedPlan) -> [u32; FIRSTS]
    requires { (j : Job) × PlannedBy j plan.now }
    ensures { (j : Job) → PlannedBy j plan.now → Numbers j j.matrix.n result }
{
    let mut first = [0u32; FIRSTS];
    for i in 0..plan.groups.len() / WIDTH {
        if !is_leaf(plan.groups, i) {
            continue;
        }
        let g = get(plan.groups, i);
        let start = g.start as usize;
        let end = start + g.length as usize;
        first[g.first as usize + 1] += leaf_updates(plan.sizes, start, end) as u32;
    }
    first
}

// Each number becomes the sum of those up to it.
fn cumulate(mut first: [u32; FIRSTS]) -> [u32; FIRSTS]
    requires { (length first ≡ suc max_workers) × (get_or first 0 0 ≡ 0) × (sum_below (λ w. get_or first (w + 1) 0) max_workers ≤ max_updates) }
    ensures { (length result ≡ suc max_workers) × ((w : ℕ) → w ≤ max_workers → get_or result w 0 ≡ sum_below (λ v. get_or first (v + 1) 0) w) }
{
    for w in 0..MAX_WORKERS {
        first[w + 1] += first[w];
    }
    first
}

// Where each worker's updates begin, and where the last one's end, by the first `count` records of a list.
pub fn first_updates(groups: &[u32], count: usize, sizes: &[u32; MAX_ROWS]) -> [u32; FIRSTS]
    requires { (j : Job) × Planned j groups.now count sizes.now }
    ensures { (j : Job) → Planned j groups.now count sizes.now → Counted j result }
{
    let plan = SizedPlan {
        groups: &groups[..WIDTH * count],
        sizes,
    };
    cumulate(count_updates(&plan))
}
