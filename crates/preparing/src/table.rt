// The gates of all groups and workers in one table, sixteen numbers a group.
ghost use Rattle.std.specs.Prelude.{◌≡◌, ◌*◌, ◌<◌, length};
ghost use Rattle.plan.specs.Sound.{max_workers, max_groups};
ghost use Rattle.waits.specs.Code.Waits.{Recorded};
ghost use Rattle.preparing.specs.Code.Gates.{Column, AllGates};

use crate::gates::worker_gates;
use plan::{MAX_GROUPS, MAX_WORKERS};

pub const GATES: usize = MAX_GROUPS * MAX_WORKERS;

// One worker's gates, over its column.
fn put_column(gates: &[u32; MAX_GROUPS], v: usize, table: &mut [u32; GATES])
    requires { (v < max_workers) × (length table.old ≡ max_groups * max_workers) }
    ensures { Column v max_groups gates.now table.old table.new }
{
    for (i, gate) in gates.iter().enumerate() {
        table[i * MAX_WORKERS + v] = *gate;
    }
}

// The gates of all workers, worker by worker.
pub fn all_gates(groups: &[u32], count: usize, ends: &[u32; MAX_GROUPS]) -> [u32; GATES]
    requires { Recorded count groups.now }
    ensures { AllGates max_workers count groups.now ends.now result }
{
    let mut table = [0u32; GATES];
    for v in 0..MAX_WORKERS {
        let gates = worker_gates(groups, count, ends, v);
        put_column(&gates, v, &mut table);
    }
    table
}
