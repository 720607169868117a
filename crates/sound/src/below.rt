// The children of every group tile it, and like-coloured ones keep their distance.
ghost use Rattle.std.specs.Prelude.{◌≡◌, ◌+◌, ◌^◌, ◌<◌};
ghost use Rattle.plan.specs.Groups.{records};
ghost use Rattle.plan.specs.Sound.{max_groups, children, children_sound, all_sound};
ghost use Rattle.plan.specs.Code.Checks.{record_at, below_whole};
ghost use Rattle.apart.specs.Code.Subject.{rows_of, far_of};
ghost use Rattle.apart.specs.Code.Marks.{UpTo, Judged};

use apart::apart_below;
use apart::marks::Marks;
use apart::net::Subject;
use matrix::limits::MAX_ROWS;
use plan::MAX_GROUPS;
use plan::fields::Colour;
use shape::tiling::tiled_below;

// As many marks as the children of one colour may need, one for each record, and those of both.
const MARKS: u32 = MAX_GROUPS as u32;

const MARKS_OF_BOTH: u32 = 2 * MARKS;

// The children of the group at parent, if it has any, tile it, and like-coloured ones are beyond k joins of each other.
fn sound_below(subject: &Subject, marks: &mut Marks, parent: usize, low: u32) -> bool
    requires { (parent < subject.now.plan.count) × UpTo low marks.old × (low + max_groups + max_groups < 2 ^ 32) }
    ensures { Judged (children_sound (far_of subject.now) (rows_of subject.now)
        (record_at subject.now.plan.groups.now parent) (children parent (below_whole subject.now.plan.count subject.now.plan.groups.now))) (low + max_groups + max_groups) marks.new result }
{
    if !tiled_below(&subject.plan, parent) {
        return false;
    }
    if !apart_below(subject, marks, parent, Colour::Red.number(), low) {
        return false;
    }
    apart_below(subject, marks, parent, Colour::Blue.number(), low + MARKS)
}

// So do the children of every group. Each group and colour has marks of its own, above those of the groups before it.
pub fn all_sound(subject: &Subject) -> bool
    ensures { result ≡ all_sound (far_of subject.now) (rows_of subject.now)
        (below_whole subject.now.plan.count subject.now.plan.groups.now) 0 (records subject.now.plan.count subject.now.plan.groups.now) }
{
    let mut marks = Marks {
        given: [0u32; MAX_ROWS],
        done: [0u32; MAX_ROWS],
    };
    for i in 0..subject.plan.count {
        if !sound_below(subject, &mut marks, i, MARKS_OF_BOTH * i as u32) {
            return false;
        }
    }
    true
}
