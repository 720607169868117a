// What rows and levels add to their group's load, by the keys of the rows.
#![tactic(auto)]

ghost use Rattle.std.specs.Prelude.{◌≡◌, ◌<◌, ◌≤◌, length, get_or};
ghost use Rattle.matrix.specs.Limits.{max_rows};
ghost use Rattle.sort.specs.Code.Sort.{max_levels};
ghost use Rattle.loads.specs.Code.Stretches.{levels_in, key_weight, key_load, Weighed, Levelled, Loaded};

use matrix::limits::MAX_ROWS;
use sort::MAX_LEVELS;

// What row v adds to its group's load: 1, and 1 for each row adjacent to it. Its key is its degree and 3 more.
fn weight(keys: &[u32; MAX_ROWS], v: u32) -> u32
    requires { (v < max_rows) × (3 ≤ get_or keys.now v 0) }
    ensures { result ≡ key_weight keys.now v }
{
    keys[v as usize] - 2
}

// The load of some rows.
fn load(keys: &[u32; MAX_ROWS], rows: &[u32]) -> u32
    requires { Weighed keys.now rows.now }
    ensures { result ≡ key_load keys.now rows.now }
{
    let mut sum = 0;
    for v in rows {
        sum += weight(keys, *v);
    }
    sum
}

// The load of each level of a stretch; the answer is the load of all.
pub fn level_loads(
    keys: &[u32; MAX_ROWS],
    stretch: &[u32],
    ends: &[u32],
    loads: &mut [u32; MAX_LEVELS],
) -> u32
    requires { Weighed keys.now stretch.now × Levelled 0 ends.now stretch.now (levels_in 0 ends.now stretch.now)
        × (length ends.now ≤ max_levels) }
    ensures { Loaded (key_load keys.now) stretch.now (levels_in 0 ends.now stretch.now) result loads.new }
{
    let mut sum = 0;
    let mut from = 0;
    for (k, end) in ends.iter().enumerate() {
        let to = *end as usize;
        let q = load(keys, &stretch[from..to]);
        loads[k] = q;
        sum += q;
        from = to;
    }
    sum
}
