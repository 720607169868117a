// Whether a worker is inside a row, and whether it is ready for the other crew.
ghost use Rattle.std.specs.Prelude.{◌≡◌, List, ℕ, ◌<◌, eqb};
ghost use Rattle.plan.specs.Sound.{max_workers};
ghost use Rattle.crews.specs.Crews.{unless_away};
ghost use Rattle.steps.specs.Code.Steps.{RowTables, RowsBy};
ghost use Rattle.steps.specs.Code.Work as steps;
ghost use Rattle.turns.specs.Code.Inside.{inside_at, inside_in};

use plan::{MAX_GROUPS, MAX_WORKERS};
use steps::course::Course;
use steps::{accesses, refusal};
use tables::Tables;

// Worker w has an access left, and has made one in the row of that access.
pub fn is_inside(tables: &Tables, made: &[u32; MAX_WORKERS], w: usize) -> bool
    requires { (w < max_workers) × ((n : ℕ) × (leaves : List ℕ) × RowTables n tables.now.first.now tables.now.row.now tables.now.begins.now leaves) }
    ensures { result ≡ inside_at tables.now.first.now tables.now.row.now tables.now.begins.now made.now w }
{
    let done = made[w];
    if accesses(tables.first, w) <= done {
        return false;
    }
    let start = tables.first[w];
    let p = tables.row[(start + done / 2) as usize] as usize;
    2 * tables.begins[p] < 2 * start + done
}

// Worker w's next pick for a crew would be taken: its counts do not refuse it, and it is not inside a row of the other.
pub fn is_free(
    course: &Course,
    made: &[u32; MAX_WORKERS],
    other: &[u32; MAX_WORKERS],
    w: usize,
    blocks: &[bool; MAX_GROUPS],
) -> bool
    requires { (w < max_workers) × RowsBy course.now.rows course.now.tables }
    ensures { result ≡ eqb (unless_away (steps.cause_in course.now blocks.now made.now w) (inside_in course.now other.now w)) 0 }
{
    if is_inside(&course.tables, other, w) {
        return false;
    }
    refusal(course, made, w, blocks).is_ok()
}
