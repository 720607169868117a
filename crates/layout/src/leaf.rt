// Which groups of a plan are its leaves.
ghost use Rattle.std.specs.Prelude.{◌≡◌, true, not, ◌/◌, ◌<◌, length};
ghost use Rattle.plan.specs.Groups.{width};
ghost use Rattle.plan.specs.Code.Checks.{below_whole, stands_depth_first};
ghost use Rattle.tables.specs.Code.Laid.{has_child};

use plan::fields::{WIDTH, get};

// The record at i has no child: the next record would be one.
pub(crate) fn is_leaf(groups: &[u32], i: usize) -> bool
    requires { (stands_depth_first (length groups.now / width) groups.now ≡ true) × (i < length groups.now / width) }
    ensures { result ≡ not (has_child i (below_whole (length groups.now / width) groups.now)) }
{
    let next = i + 1;
    if groups.len() / WIDTH <= next {
        return true;
    }
    let h = get(groups, next);
    h.parent as usize != i
}
