// The row of every worker's updates in one table: each worker's after those of the workers before it, leaf by leaf, row
// by row.
#![tactic(auto)]

pub mod counts;
mod leaf;
pub mod updates;

ghost use Rattle.std.specs.Prelude.{◌≡◌, ℕ, ◌+◌, ◌*◌, ◌/◌, ◌≤◌, ◌<◌, length};
ghost use Rattle.matrix.specs.Limits.{max_rows};
ghost use Rattle.plan.specs.Groups.{width};
ghost use Rattle.run.specs.Job.{Job};
ghost use Rattle.tables.specs.Code.Laid.{max_updates, next_of, Counted, Laid, LaidIn, Bounded, BoundedIn};
ghost use Rattle.layout.specs.Code.UpdateTable.{Sized, Planned, Stretch, Put, Filled, Blank};
ghost use Rattle.layout.specs.Code.SizedPlan.{PlannedBy};

use leaf::is_leaf;
use matrix::limits::MAX_ROWS;
use plan::fields::{WIDTH, get};
use tables::{FIRSTS, MAX_UPDATES, Tables};
use updates::{SizedPlan, Updates};

// Position p at the places of its row's updates, from a place on: one for the diagonal, two for each other entry of the
// row in the upper triangle, of which it has `size`. The place after them.
fn put_row(p: usize, size: usize, place: usize, row: &mut [u16; MAX_UPDATES]) -> usize
    requires { (p < max_rows) × (1 ≤ size) × (place + 2 * size ≤ max_updates + 1) }
    ensures { (result + 1 ≡ place + 2 * size) × Put p place result row.old row.new }
{
    let end = place + 2 * size - 1;
    row[place..end].fill(p as u16);
    end
}

// The rows of leaf i, from position `start` on and before `end`: their updates from a place on, where they begin, and
// their leaf. The place after them.
fn put_leaf(
    sizes: &[u32; MAX_ROWS],
    i: usize,
    start: usize,
    end: usize,
    place: usize,
    updates: &mut Updates,
) -> usize
    requires { (j : Job) × (w : ℕ) × Sized j sizes.now × Stretch j i w start end × (place ≡ next_of j w start)
        × Filled j start updates.old.row updates.old.begins updates.old.leaves }
    ensures { ((j : Job) (w : ℕ) → Sized j sizes.now → Stretch j i w start end → place ≡ next_of j w start
        → Filled j start updates.old.row updates.old.begins updates.old.leaves
        → (result ≡ next_of j w end) × Filled j end updates.new.row updates.new.begins updates.new.leaves)
        × (updates.new.ends ≡ updates.old.ends) }
{
    let mut next = place;
    for p in start..end {
        updates.begins[p] = next as u32;
        updates.leaves[p] = i as u16;
        next = put_row(p, sizes[p] as usize, next, &mut updates.row);
    }
    next
}

// The updates of all workers, by where each one's begin.
fn fill(plan: &SizedPlan, first: &[u32; FIRSTS], updates: &mut Updates)
    requires { (j : Job) × PlannedBy j plan.now × Counted j first.now
        × Blank j.matrix.n updates.old.row updates.old.begins updates.old.leaves updates.old.ends }
    ensures { (j : Job) → PlannedBy j plan.now → Counted j first.now
        → Blank j.matrix.n updates.old.row updates.old.begins updates.old.leaves updates.old.ends
        → Laid j first.now updates.new.row updates.new.begins updates.new.leaves updates.new.ends
        × Bounded j.matrix.n first.now updates.new.row updates.new.leaves }
{
    let mut next = *first;
    for i in 0..plan.groups.len() / WIDTH {
        if !is_leaf(plan.groups, i) {
            continue;
        }
        let g = get(plan.groups, i);
        let w = g.first as usize;
        let start = g.start as usize;
        let end = start + g.length as usize;
        let place = next[w] as usize;
        let after = put_leaf(plan.sizes, i, start, end, place, updates);
        next[w] = after as u32;
        updates.ends[i] = 2 * (after as u32 - first[w]);
    }
}

// Lays the updates of all workers, by where each one's begin and by the first `count` records of a list.
pub fn lay(
    groups: &[u32],
    count: usize,
    sizes: &[u32; MAX_ROWS],
    first: &[u32; FIRSTS],
    updates: &mut Updates,
)
    requires { (j : Job) × Planned j groups.now count sizes.now × Counted j first.now
        × Blank j.matrix.n updates.old.row updates.old.begins updates.old.leaves updates.old.ends }
    ensures { (j : Job) → Planned j groups.now count sizes.now → Counted j first.now
        → Blank j.matrix.n updates.old.row updates.old.begins updates.old.leaves updates.old.ends
        → Laid j first.now updates.new.row updates.new.begins updates.new.leaves updates.new.ends
        × Bounded j.matrix.n first.now updates.new.row updates.new.leaves }
{
    let plan = SizedPlan {
        groups: &groups[..WIDTH * count],
        sizes,
    };
    fill(&plan, first, updates);
}

// Lays them by all records of a list, and lends them as the tables of a run. The records and the sizes come one by one:
// tables lent for less long than a `SizedPlan` is could not be made from one behind a reference.
pub fn lay_tables<'a>(
    groups: &'a [u32],
    sizes: &'a [u32; MAX_ROWS],
    first: &'a [u32; FIRSTS],
    updates: &'a mut Updates,
) -> Tables<'a>
    requires { (j : Job) × Planned j groups.now (length groups.now / width) sizes.now × Counted j first.now
        × Blank j.matrix.n updates.old.row updates.old.begins updates.old.leaves updates.old.ends }
    ensures { (j : Job) → Planned j groups.now (length groups.now / width) sizes.now → Counted j first.now
        → Blank j.matrix.n updates.old.row updates.old.begins updates.old.leaves updates.old.ends
        → Planned j result.groups.now (length result.groups.now / width) sizes.now × LaidIn j result × BoundedIn j.matrix.n result }
{
    lay(groups, groups.len() / WIDTH, sizes, first, updates);
    Tables {
        groups,
        ends: &updates.ends,
        first,
        row: &updates.row,
        begins: &updates.begins,
        leaves: &updates.leaves,
    }
}
