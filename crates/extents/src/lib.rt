// Where a pair ends, and where it is cut, from the loads of the levels that are left.
#![tactic(auto)]

mod policy;
mod share;

ghost use Rattle.std.specs.Prelude.{◌≡◌, ◌+◌, ◌-◌, ◌*◌, ◌<◌, ◌≤◌, length};
ghost use Rattle.base.specs.Lists.{sum, from_first};
ghost use Rattle.plan.specs.Sound.{max_workers};
ghost use Rattle.extents.specs.Extents.{nearest, serves, extent, cut};
ghost use Rattle.extents.specs.Code.Scans.{max_load, policy_of, ends_on, nearest_end};

pub use policy::Policy;
pub use share::Share;

// How many levels and workers a pair takes.
#[derive(Clone, Copy)]
pub struct Extent {
    pub levels: usize,
    pub workers: u32,
}

// The load of all these levels. That it is small is asked here, by nearest_end and by cut, and is in no type: each takes
// another part of the loads, and every part would have to be made a value of that type, with its proof.
fn total(loads: &[u32]) -> u32
    requires { sum loads.now ≤ max_load }
    ensures { result ≡ sum loads.now }
{
    let mut sum = 0;
    for q in loads {
        sum += *q;
    }
    sum
}

// The whole number nearest to what levels of load q weigh, half going up, but at least 1.
fn nearest(q: u32, share: Share) -> u32
    requires { q ≤ share.load }
    ensures { result ≡ nearest q share.workers share.load }
{
    ((2 * (q * share.workers) + share.load) / (2 * share.load)).max(1)
}

// Levels of load q are close enough to a whole number of workers.
fn serves(q: u32, share: Share, p: u32) -> bool
    requires { (q ≤ share.load) × (p ≤ 100) }
    ensures { result ≡ serves q share.workers share.load p }
{
    let b = nearest(q, share);
    100 * (q * share.workers).abs_diff(b * share.load) < (100 - p) * share.load
}

// How many levels the first end has that serves, of those with at least so many; one more than there are, if none does.
fn first_end(loads: &[u32], least: usize, share: Share, p: u32) -> usize
    requires { (sum loads.now ≤ share.load) × (1 ≤ least) × (least ≤ length loads.now) × (p ≤ 100) }
    ensures { (from_first (λ e. serves e.load share.workers share.load p) (ends_on least loads.now) ≡ ends_on result loads.now) × (least ≤ result) }
{
    let mut q = total(&loads[..least - 1]);
    for k in least - 1..loads.len() {
        q += loads[k];
        if serves(q, share, p) {
            return k + 1;
        }
    }
    loads.len() + 1
}

// How many levels that end has, of k or more, whose load times x is nearest to y; the shorter wins a tie.
fn nearest_end(loads: &[u32], k: usize, x: u32, y: u32) -> usize
    requires { (sum loads.now ≤ max_load) × (x ≤ max_workers) × (1 ≤ k) × (k ≤ length loads.now) }
    ensures { (result ≡ nearest_end x y (ends_on k loads.now)) × (k ≤ result) × (result ≤ length loads.now) }
{
    let mut q = total(&loads[..k]);
    let mut best = k;
    let mut least = (q * x).abs_diff(y);
    for i in k..loads.len() {
        if y <= q * x {
            return best;
        }
        q += loads[i];
        let d = (q * x).abs_diff(y);
        if d < least {
            best = i + 1;
            least = d;
        }
    }
    best
}

// The next pair's levels and workers.
pub fn next_extent(loads: &[u32], share: Share, policy: Policy, free: u32) -> Extent
    requires { (sum loads.now ≤ share.load) × (2 * policy.reach ≤ length loads.now) }
    ensures { (result.levels ≡ (extent share.workers share.load (policy_of policy) free loads.now).levels)
        × (result.workers ≡ (extent share.workers share.load (policy_of policy) free loads.now).workers) }
{
    let all = loads.len();
    let rest = Extent {
        levels: all,
        workers: free,
    };
    let least = 2 * policy.reach;
    let k = first_end(loads, least, share, policy.p);
    if all < k {
        return rest;
    }
    let b = nearest(total(&loads[..k]), share);
    let e = nearest_end(loads, k, share.workers, b * share.load);
    if all - e < least {
        return rest;
    }
    if free <= b {
        return rest;
    }
    Extent {
        levels: e,
        workers: b,
    }
}

// How many of a pair's levels are red.
pub fn cut(loads: &[u32], reach: usize) -> usize
    requires { (sum loads.now ≤ max_load) × (1 ≤ reach) × (2 * reach ≤ length loads.now) }
    ensures { result ≡ cut reach loads.now }
{
    let end = loads.len() - reach;
    nearest_end(&loads[..end], reach, 2, total(loads))
}
