// The children of a group tile it.
ghost use Rattle.std.specs.Prelude.{◌≡◌, true, ◌*◌, ◌≤◌, ◌<◌, length};
ghost use Rattle.plan.specs.Groups.{width, group_of};
ghost use Rattle.plan.specs.Sound.{children};
ghost use Rattle.plan.specs.Code.Checks.{record_at, below_whole, stands_depth_first, fitting, pending, complete, tiles};
ghost use Rattle.shape.specs.Code.Shape.{NextChild};

use plan::fields::{Colour, Group};
use plan::lists::Plan;

// The next child of the group at k among the records from an index on. The first record whose parent is before k
// ends the group.
pub fn next_child(plan: &Plan, k: usize, from: usize) -> Option<usize>
    requires { (width * plan.now.count ≤ length plan.now.groups.now) × (stands_depth_first plan.now.count plan.now.groups.now ≡ true) × (k < from) × (from ≤ plan.now.count) }
    ensures { NextChild plan.now.count plan.now.groups.now k from result }
{
    for i in from..plan.count {
        let parent = plan.record(i).parent as usize;
        if parent == k {
            return Some(i);
        }
        if parent < k {
            return None;
        }
    }
    None
}

// The record is the next child at position s from worker f on; w is the workers of a red whose blue is next, 0 where a
// red is next.
#[tactic(auto, using(std::proofs::lemmas::Bool::Decides::nat_tests), unfolding(plan::specs::Code::Checks::fitting))]
fn fits(h: Group, s: usize, f: usize, w: usize) -> bool
    ensures { result ≡ fitting s f w (group_of h) }
{
    if h.start as usize != s || h.first as usize != f {
        return false;
    }
    if w == 0 {
        h.colour == Colour::Red as u32 && 1 <= h.workers
    } else {
        h.colour == Colour::Blue as u32 && h.workers as usize == w
    }
}

// After the record, the workers of a red whose blue is next.
#[tactic(auto, using(std::proofs::lemmas::Bool::Decides::nat_tests), unfolding(plan::specs::Code::Checks::pending))]
fn next_pending(h: Group, w: usize) -> usize
    ensures { result ≡ pending w (group_of h) }
{
    if w == 0 { h.workers as usize } else { 0 }
}

// The children that end at position s and worker f are all of the group's.
#[tactic(auto, using(std::proofs::lemmas::Bool::Decides::nat_tests), unfolding(plan::specs::Code::Checks::complete))]
fn ends(g: Group, s: usize, f: usize, w: usize) -> bool
    ensures { result ≡ complete s f w (group_of g) }
{
    w == 0
        && s == g.start as usize + g.length as usize
        && f == g.first as usize + g.workers as usize
}

// The children of the group at k tile it, if it has any.
pub fn tiled_below(plan: &Plan, k: usize) -> bool
    requires { (width * plan.now.count ≤ length plan.now.groups.now) × (stands_depth_first plan.now.count plan.now.groups.now ≡ true) × (k < plan.now.count) }
    ensures { result ≡ tiles (record_at plan.now.groups.now k) (children k (below_whole plan.now.count plan.now.groups.now)) }
{
    let g = plan.record(k);
    let mut next = next_child(plan, k, k + 1);
    if next.is_none() {
        return true;
    }
    let mut s = g.start as usize;
    let mut f = g.first as usize;
    let mut w = 0;
    // A child is found from the one before it, so no range is gone through.
    while let Some(i) = next {
        let h = plan.record(i);
        if !fits(h, s, f, w) {
            return false;
        }
        s += h.length as usize;
        f += w;
        w = next_pending(h, w);
        next = next_child(plan, k, i + 1);
    }
    ends(g, s, f, w)
}
