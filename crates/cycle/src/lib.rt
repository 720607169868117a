// The group planner and the pair planner, which call each other.
#![tactic(auto)]

mod rest;
pub mod setting;
mod taken;

ghost use Rattle.std.specs.Prelude.{◌≡◌, ℕ, ◌+◌, ◌-◌, ◌*◌, ◌<◌, ◌≤◌, length, take, get_or};
ghost use Rattle.base.specs.Lists.{sum};
ghost use Rattle.levels.specs.Code.Graph.{adj};
ghost use Rattle.extents.specs.Extents.{extent, cut};
ghost use Rattle.extents.specs.Code.Scans.{policy_of};
ghost use Rattle.loads.specs.Code.Stretches.{levels_in};
ghost use Rattle.cycle.specs.Code.Records.{Holds};
ghost use Rattle.cycle.specs.Code.Cycle.{GroupTask, PairsTask, group_plan, pairs_plan};

use extents::{Policy, Share, cut, next_extent};
use loads::level_loads;
use plan::fields::{Group, put};
pub use rest::Rest;
use search::visiting::Visits;
use setting::Setting;
use sort::{MAX_LEVELS, level_sort};
use taken::Taken;

// A group that is split: its record's index, its depth, where it starts, its workers and its load.
#[derive(Clone, Copy)]
pub struct Parent {
    pub index: u32,
    pub depth: u32,
    pub start: u32,
    pub workers: u32,
    pub load: u32,
}

// What is left of a group's stretch: how many rows are done, the next worker, how many are free, and the next record's
// index.
#[derive(Clone, Copy)]
pub struct Left {
    pub done: u32,
    pub first: u32,
    pub free: u32,
    pub index: u32,
}

// A pair: how many levels and workers it takes, how many of its rows are red, and how many it has.
#[derive(Clone, Copy)]
pub struct Pair {
    pub levels: usize,
    pub workers: u32,
    pub reds: u32,
    pub rows: u32,
}

// A group that is to be planned, its record's index, and how often it may be split.
#[derive(Clone, Copy)]
pub struct Task {
    pub group: Group,
    pub index: u32,
    pub stages: u32,
}

// The levels that are left: where each ends, and its load.
#[derive(Clone, Copy)]
pub struct Levels<'a> {
    pub ends: &'a [u32],
    pub loads: &'a [u32],
}

// The next pair.
fn next_pair(levels: &Levels, policy: Policy, rest: Rest) -> Pair
    requires { (sum levels.now.loads.now ≤ rest.up.load) × (2 * policy.reach ≤ length levels.now.loads.now) × (1 ≤ rest.left.free)
        × (length levels.now.ends.now ≡ length levels.now.loads.now) × ((j : ℕ) → j < length levels.now.ends.now → rest.left.done ≤ get_or levels.now.ends.now j 0) }
    ensures { (result.levels ≡ (extent rest.up.workers rest.up.load (policy_of policy) rest.left.free levels.now.loads.now).levels)
        × (result.workers ≡ (extent rest.up.workers rest.up.load (policy_of policy) rest.left.free levels.now.loads.now).workers)
        × (result.reds ≡ get_or levels.now.ends.now (cut policy.reach (take result.levels levels.now.loads.now) - 1) 0 - rest.left.done)
        × (result.rows ≡ get_or levels.now.ends.now (result.levels - 1) 0 - rest.left.done) }
{
    let share = Share {
        workers: rest.up.workers,
        load: rest.up.load,
    };
    let e = next_extent(levels.loads, share, policy, rest.left.free);
    let c = cut(&levels.loads[..e.levels], policy.reach);
    let red_end = levels.ends[c - 1];
    let end = levels.ends[e.levels - 1];
    Pair {
        levels: e.levels,
        workers: e.workers,
        reds: red_end - rest.left.done,
        rows: end - rest.left.done,
    }
}

// A group's record, then its pairs, if it is split; the answer is the index past its records. The order is cut for each
// group and the records never are: so they are no one struct, which every call would take apart and make anew. Lent for
// it, whatever they hold: room for all rows, as they ascend and as they are tried as roots, in lists that need be no
// longer, and what a search works in.
#[cycle(plan_group_plan_pairs)]
pub fn plan_group(
    setting: &Setting,
    order: &mut [u32],
    records: &mut [u32],
    own: &mut [u32],
    roots: &mut [u32],
    visits: &mut Visits,
    task: Task,
) -> u32
    requires { GroupTask setting.now task.stages task.index order.old records.old task.group
        × (setting.now.ranked.graph.m.n ≤ length own.old) × (setting.now.ranked.graph.m.n ≤ length roots.old) }
    ensures { Holds (group_plan setting.now task.stages task.index task.group order.old) task.index records.old order.new records.new result }
{
    let Task {
        group,
        index,
        stages,
    } = task;
    put(records, index as usize, group);
    if stages == 0 {
        return index + 1;
    }
    if group.workers < 2 {
        return index + 1;
    }
    let mut ends = [0u32; MAX_LEVELS];
    let reach = setting.policy.reach;
    let m = level_sort(
        &setting.ranked,
        order,
        &mut ends,
        own,
        roots,
        visits,
        reach,
        2 * reach,
    );
    if m < 2 * reach {
        return index + 1;
    }
    let mut loads = [0u32; MAX_LEVELS];
    let load = level_loads(setting.ranked.keys, order, &ends[..m], &mut loads);
    let up = Parent {
        index,
        depth: group.depth,
        start: group.start,
        workers: group.workers,
        load,
    };
    let left = Left {
        done: 0,
        first: group.first,
        free: group.workers,
        index: index + 1,
    };
    let levels = Levels {
        ends: &ends[..m],
        loads: &loads[..m],
    };
    let rest = Rest {
        up,
        left,
        stages: stages - 1,
    };
    plan_pairs(setting, order, &levels, records, own, roots, visits, rest)
}

// The pairs of a group in the levels that are left: the next pair's red group, its blue group, and the pairs after it.
#[cycle(plan_group_plan_pairs)]
fn plan_pairs(
    setting: &Setting,
    order: &mut [u32],
    levels: &Levels,
    records: &mut [u32],
    own: &mut [u32],
    roots: &mut [u32],
    visits: &mut Visits,
    rest: Rest,
) -> u32
    requires { PairsTask setting.now rest.stages order.old levels.now.ends.now levels.now.loads.now records.old rest.up rest.left
        (levels_in rest.left.done levels.now.ends.now order.old)
        × (setting.now.ranked.graph.m.n ≤ length own.old) × (setting.now.ranked.graph.m.n ≤ length roots.old) }
    ensures { Holds (pairs_plan (adj setting.now.ranked.graph) setting.now.ranked.graph.m.n (policy_of setting.now.policy) rest.stages rest.up rest.left
        (levels_in rest.left.done levels.now.ends.now order.old)) rest.left.index records.old order.new records.new result }
{
    let pair = next_pair(levels, setting.policy, rest);
    let taken = Taken {
        up: rest.up,
        left: rest.left,
        pair,
    };
    let k = pair.levels;
    let a = pair.reds as usize;
    let b = pair.rows as usize;
    let red = Task {
        group: taken.red(),
        index: rest.left.index,
        stages: rest.stages,
    };
    let i = plan_group(setting, &mut order[..a], records, own, roots, visits, red);
    let blue = Task {
        group: taken.blue(),
        index: i,
        stages: rest.stages,
    };
    let j = plan_group(setting, &mut order[a..b], records, own, roots, visits, blue);
    if k == levels.ends.len() {
        return j;
    }
    let later = Levels {
        ends: &levels.ends[k..],
        loads: &levels.loads[k..],
    };
    let next = Rest {
        up: rest.up,
        left: taken.after(j),
        stages: rest.stages,
    };
    plan_pairs(
        setting,
        &mut order[b..],
        &later,
        records,
        own,
        roots,
        visits,
        next,
    )
}
