// The whole: all rows, sorted by level, and their plan.
ghost use Rattle.std.specs.Prelude.{◌≡◌, ◌≤◌, length};
ghost use Rattle.base.specs.Lists.{concat, range};
ghost use Rattle.levels.specs.Levels.{own_levels};
ghost use Rattle.levels.specs.Code.Graph.{adj};
ghost use Rattle.plan.specs.Sound.{max_workers, max_distance};
ghost use Rattle.extents.specs.Code.Scans.{policy_of};
ghost use Rattle.race.specs.Planner.{plan_rows};
ghost use Rattle.cycle.specs.Code.Records.{Holds};
ghost use Rattle.matrix.specs.Limits.{max_rows};

use cycle::setting::Setting;
use cycle::{Task, plan_group};
use extents::Policy;
use levels::graph::Graph;
use matrix::limits::MAX_ROWS;
use plan::MAX_DEPTH;
use plan::fields::{Colour, Group, MAX_FIELDS};
use search::visiting::Visits;
use sort::degrees::{Ranked, put_degrees};
use sort::{MAX_LEVELS, level_sort};

// What the sorts work in: room for the rows, as they ascend and as they are tried as roots, and for the visits of a
// search.
#[derive(Drop)]
struct Workspace {
    own: [u32; MAX_ROWS],
    roots: [u32; MAX_ROWS],
    visits: Visits,
}

// A group at depth 0 may be split so often.
const STAGES: u32 = MAX_DEPTH as u32;

// The rows by their numbers.
fn number(order: &mut [u32])
    requires { length order.old ≤ max_rows }
    ensures { order.new ≡ range 0 (length order.old) }
{
    for (i, v) in order.iter_mut().enumerate() {
        *v = i as u32;
    }
}

// The rows by their levels. In a frame of its own: its array of ends lies beside none of the groups'.
#[inline(never)]
fn sort_rows(ranked: &Ranked, order: &mut [u32], work: &mut Workspace, policy: Policy)
    requires { order.old ≡ range 0 ranked.now.graph.m.n }
    ensures { order.new ≡ concat (own_levels (adj ranked.now.graph) policy.reach ranked.now.graph.m.n (range 0 ranked.now.graph.m.n)) }
{
    let mut ends = [0u32; MAX_LEVELS];
    level_sort(
        ranked,
        order,
        &mut ends,
        &mut work.own,
        &mut work.roots,
        &mut work.visits,
        policy.reach,
        0,
    );
}

// The plan of all rows; the answer is how many groups it has. If it is one, the whole is a leaf, and its rows are still
// by their numbers.
pub fn plan_rows(
    graph: &Graph,
    policy: Policy,
    workers: u32,
    order: &mut [u32],
    records: &mut [u32; MAX_FIELDS],
) -> u32
    requires { (length order.old ≡ graph.now.m.n) × (policy.reach ≤ max_distance) × (workers ≤ max_workers) }
    ensures { Holds (plan_rows (adj graph.now) graph.now.m.n (policy_of policy) workers) 0 records.old order.new records.new result }
{
    number(order);
    let mut keys = [0u32; MAX_ROWS];
    put_degrees(graph, &mut keys);
    let ranked = Ranked {
        graph: *graph,
        keys: &keys,
    };
    let setting = Setting { ranked, policy };
    let group = Group {
        start: 0,
        length: graph.m.n as u32,
        first: 0,
        workers,
        colour: Colour::Whole as u32,
        parent: 0,
        depth: 0,
    };
    let whole = Task {
        group,
        index: 0,
        stages: STAGES,
    };
    let mut work = Workspace {
        own: [0; MAX_ROWS],
        roots: [0; MAX_ROWS],
        visits: Visits {
            marks: [0; MAX_ROWS],
            queue: [0; MAX_ROWS],
        },
    };
    let count = plan_group(
        &setting,
        order,
        records,
        &mut work.own,
        &mut work.roots,
        &mut work.visits,
        whole,
    );
    if count == 1 {
        sort_rows(&ranked, order, &mut work, policy);
    }
    count
}
