// The ready sets of both crews, by the tables of the roof.
ghost use Rattle.std.specs.Prelude.{◌≡◌, Ok, List, ℕ};
ghost use Rattle.run.specs.Job as job;
ghost use Rattle.run.specs.State.{State};
ghost use Rattle.run.specs.Machine.{bits};
ghost use Rattle.tables.specs.Code.Laid.{Counted, Laid, Waits};
ghost use Rattle.layout.specs.Code.SizedPlan.{PlannedBy};
ghost use Rattle.crews.specs.Crews.{Crew, other, Two, own_of, Roof, job_for, crew_ready};
ghost use Rattle.crews.specs.Calls.{ready_both};
ghost use Rattle.shared.specs.Performed.{as_sets};

use crate::Sets;
use layout::lay_tables;
use layout::updates::{SizedPlan, Updates};
use matrix::limits::MAX_ROWS;
use plan::{MAX_GROUPS, MAX_WORKERS};
use steps::course::{Course, RowCourse};
use tables::{FIRSTS, MAX_UPDATES};
use turns::Crews;
use turns::inside::is_free;

// Sixteen bits, bit w for worker w, of the crew with these counts; the other crew has its own.
fn crew_bits(
    by_rows: &RowCourse,
    made: &[u32; MAX_WORKERS],
    theirs: &[u32; MAX_WORKERS],
    blocks: &[bool; MAX_GROUPS],
) -> u16
    ensures { (q : Roof) (s : Two State) (c : Crew) (ends : List ℕ) → by_rows.now.course.workers ≡ job.workers (job_for q c)
        → ((d : Crew) → Laid (job_for q d) by_rows.now.course.tables.first.now by_rows.now.course.tables.row.now by_rows.now.course.tables.begins.now by_rows.now.course.tables.leaves.now ends)
        → (own_of s c).made ≡ made.now → (own_of s (other c)).made ≡ theirs.now → Waits (job_for q c) made.now blocks.now → result ≡ bits (crew_ready q s c) }
{
    let mut set: u16 = 0;
    let course = &by_rows.course;
    for w in 0..course.workers {
        let free = is_free(course, made, theirs, w, blocks);
        set |= (free as u16) << w;
    }
    set
}

// The bits of both crews' states, and the count of those set.
pub(crate) fn ready_sets(crews: Crews, plan: &SizedPlan, first: [u32; FIRSTS]) -> Sets
    requires { (q : Roof) × ((c : Crew) → PlannedBy (job_for q c) plan.now) × ((c : Crew) → Counted (job_for q c) first) }
    ensures { (q : Roof) (s : Two State) → ((c : Crew) → PlannedBy (job_for q c) plan.now) → ((c : Crew) → Counted (job_for q c) first)
        → s.of0.made ≡ crews.of0.made → s.of1.made ≡ crews.of1.made → as_sets (Ok result) ≡ ready_both q s }
{
    let mut updates = Updates {
        row: [0u16; MAX_UPDATES],
        begins: [0u32; MAX_ROWS],
        leaves: [0u16; MAX_ROWS],
        ends: [0u32; MAX_GROUPS],
    };
    let tables = lay_tables(plan.groups, plan.sizes, &first, &mut updates);
    let by_rows = RowCourse {
        course: Course::of(&tables, MAX_ROWS),
    };
    let records = by_rows.course.records();
    let made0 = crews.of0.made;
    let made1 = crews.of1.made;
    let mut blocks0 = [false; MAX_GROUPS];
    records.find_blocked(&made0, &mut blocks0);
    let mut blocks1 = [false; MAX_GROUPS];
    records.find_blocked(&made1, &mut blocks1);
    let bits0 = crew_bits(&by_rows, &made0, &made1, &blocks0);
    let bits1 = crew_bits(&by_rows, &made1, &made0, &blocks1);
    Sets {
        bits0,
        count0: u32::count_ones(bits0 as u32),
        bits1,
        count1: u32::count_ones(bits1 as u32),
    }
}
