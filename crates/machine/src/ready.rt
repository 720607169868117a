// The ready set: the workers whose next step would be taken, by the tables of the job.
ghost use Rattle.std.specs.Prelude.{◌≡◌, List, ℕ, ◌/◌, length};
ghost use Rattle.plan.specs.Groups.{width, records};
ghost use Rattle.plan.specs.Code.Checks.{record_at};
ghost use Rattle.run.specs.Job.{Job, Accepted};
ghost use Rattle.run.specs.Job as job;
ghost use Rattle.run.specs.Machine.{ready, bits};
ghost use Rattle.tables.specs.Code.Laid.{Laid, Waits};
ghost use Rattle.waits.specs.Code.Waits.{Recorded};

use plan::{MAX_GROUPS, MAX_WORKERS};
use steps::course::Course;
use steps::refusal;

// Sixteen bits, bit w for worker w.
fn ready_bits(course: &Course, made: &[u32; MAX_WORKERS], blocks: &[bool; MAX_GROUPS]) -> u16
    ensures { (j : Job) (begins ends : List ℕ) → course.now.workers ≡ job.workers j
        → Laid j course.now.tables.first.now course.now.tables.row.now begins course.now.tables.leaves.now ends
        → Waits j made.now blocks.now → result ≡ bits (ready j made.now) }
{
    let mut set: u16 = 0;
    for w in 0..course.workers {
        let is_ready = refusal(course, made, w, blocks).is_ok();
        set |= (is_ready as u16) << w;
    }
    set
}

// .. at these counts.
pub fn ready_workers(made: &[u32; MAX_WORKERS], course: &Course) -> u16
    requires { (course.now.workers ≡ (record_at course.now.tables.groups.now 0).workers)
        × Recorded (length course.now.tables.groups.now / width) course.now.tables.groups.now }
    ensures { (j : Job) (begins : List ℕ) → Accepted j
        → j.plan.groups ≡ records (length course.now.tables.groups.now / width) course.now.tables.groups.now
        → Laid j course.now.tables.first.now course.now.tables.row.now begins course.now.tables.leaves.now course.now.tables.ends.now
        → result ≡ bits (ready j made.now) }
{
    let mut blocks = [false; MAX_GROUPS];
    course.records().find_blocked(made, &mut blocks);
    ready_bits(course, made, &blocks)
}
