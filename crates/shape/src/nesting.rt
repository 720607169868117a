// The records stand depth first, with their parents and depths.
ghost use Rattle.std.specs.Prelude.{◌≡◌, ◌*◌, ◌≤◌, eqb, length};
ghost use Rattle.base.specs.Lists.{from_first};
ghost use Rattle.plan.specs.Groups.{width};
ghost use Rattle.shape.specs.Code.Shape.{path_of};
ghost use Rattle.plan.specs.Code.Checks.{stands_depth_first};

use plan::MAX_DEPTH;
use plan::lists::Plan;

// How long the path is up to the parent, of the first t of the array; 0 if it is not there.
fn up_to(path: &[usize; 5], t: usize, parent: usize) -> usize
    requires { t ≤ 5 }
    ensures { (path_of path.now result ≡ from_first (eqb parent) (path_of path.now t)) × (result ≤ t) }
{
    for k in (0..t).rev() {
        if path[k] == parent {
            return k + 1;
        }
    }
    0
}

// Each record's parent is the record before it, or an ancestor of that; no record is deeper than 4, and each says how
// deep it is.
pub fn depth_first(plan: &Plan) -> bool
    requires { width * plan.now.count ≤ length plan.now.groups.now }
    ensures { result ≡ stands_depth_first plan.now.count plan.now.groups.now }
{
    let mut path = [0usize; 5];
    let mut t = 1;
    for i in 1..plan.count {
        let g = plan.record(i);
        let up = up_to(&path, t, g.parent as usize);
        if up < 1 || MAX_DEPTH < up {
            return false;
        }
        if g.depth as usize != up {
            return false;
        }
        path[up] = i;
        t = up + 1;
    }
    true
}
