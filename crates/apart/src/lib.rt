// Like-coloured children of a group are beyond k joins of each other.
#![tactic(auto)]

pub mod marks;
pub mod net;
mod reach;

ghost use Rattle.std.specs.Prelude.{ℕ, ◌+◌, ◌-◌, ◌/◌, ◌^◌, ◌≤◌, ◌<◌, length, get_or};
ghost use Rattle.matrix.specs.Held.{held};
ghost use Rattle.plan.specs.Groups.{group_of};
ghost use Rattle.plan.specs.Sound.{max_groups, max_distance, children, like_apart};
ghost use Rattle.plan.specs.Code.Checks.{below_whole, of_colour};
ghost use Rattle.apart.specs.Code.Subject.{rows_of, far_of};
ghost use Rattle.apart.specs.Code.Marks.{around, around_like, Opened, Widened, Fresh, Compared, UpTo, Judged};

use marks::{Marks, Pen, touch_all};
use net::{Net, Subject};
use plan::fields::Group;
use reach::{Near, Wide, touch_each};
use shape::tiling::next_child;

// All rows within j joins, at most two, of some rows get the pen's mark, unless one has another child's.
fn touch_near(net: &Net, marks: &mut Marks, rows: &[u32], j: usize, pen: Pen) -> bool
    requires { Opened (held net.now.m) pen.mine marks.old × ((i : ℕ) → i < length rows.now → get_or rows.now i 0 < net.now.m.n) × (j ≤ 2) }
    ensures { Widened (held net.now.m) pen.low pen.mine (around (held net.now.m) j rows.now) marks.old marks.new result }
{
    match j {
        0 => touch_all(&mut marks.given, rows, pen),
        1 => touch_each::<Near>(net, marks, rows, pen),
        _ => touch_each::<Wide>(net, marks, rows, pen),
    }
}

// A child's rows at the distance k: none within k / 2 joins of them may have another child's mark, and those within
// k - k / 2 joins get the pen's. A path of k joins or fewer from another child has a row of both kinds.
fn compare_rows(net: &Net, marks: &mut Marks, rows: &[u32], k: usize, pen: Pen) -> bool
    requires { Fresh pen.mine marks.old × ((i : ℕ) → i < length rows.now → get_or rows.now i 0 < net.now.m.n) × (k ≤ max_distance) }
    ensures { Compared pen.low pen.mine (around (held net.now.m) (k / 2) rows.now) (around (held net.now.m) (k - k / 2) rows.now) marks.old marks.new result }
{
    let half = k / 2;
    if !touch_near(net, marks, rows, half, pen) {
        return false;
    }
    if k - half == half {
        return true;
    }
    let over = Pen {
        low: pen.mine,
        mine: pen.mine,
    };
    touch_near(net, marks, rows, k - half, over)
}

// The group's rows are compared, if it has the colour: its stretch of the first n places of the order.
fn compare_like(subject: &Subject, marks: &mut Marks, g: Group, colour: u32, pen: Pen) -> bool
    requires { Fresh pen.mine marks.old }
    ensures { Compared pen.low pen.mine (around_like (held subject.now.net.m) (rows_of subject.now) (subject.now.k / 2) colour (group_of g))
        (around_like (held subject.now.net.m) (rows_of subject.now) (subject.now.k - subject.now.k / 2) colour (group_of g)) marks.old marks.new result }
{
    if g.colour != colour {
        return true;
    }
    let n = subject.net.m.n;
    let start = g.start as usize;
    let from = start.min(n);
    let to = (start + g.length as usize).min(n);
    compare_rows(
        &subject.net,
        marks,
        &subject.plan.order[from..to],
        subject.k,
        pen,
    )
}

// The children of a colour of the group at parent keep the distance from each other. Marks above low are theirs: the
// child at i marks with low + i.
pub fn apart_below(
    subject: &Subject,
    marks: &mut Marks,
    parent: usize,
    colour: u32,
    low: u32,
) -> bool
    requires { (parent < subject.now.plan.count) × UpTo low marks.old × (low + max_groups < 2 ^ 32) }
    ensures { Judged (like_apart (far_of subject.now) (rows_of subject.now)
        (of_colour colour (children parent (below_whole subject.now.plan.count subject.now.plan.groups.now)))) (low + max_groups) marks.new result }
{
    let plan = &subject.plan;
    let mut next = next_child(plan, parent, parent + 1);
    // A child is found from the one before it, so no range is gone through.
    while let Some(i) = next {
        let pen = Pen {
            low,
            mine: low + i as u32,
        };
        if !compare_like(subject, marks, plan.record(i), colour, pen) {
            return false;
        }
        next = next_child(plan, parent, i + 1);
    }
    true
}
