// The ready set: the workers whose next step would be taken.
ghost use Rattle.std.specs.Prelude.{◌≡◌, List, Ok, ℤ};
ghost use Rattle.run.specs.Calls.{ready_of};
ghost use Rattle.run.specs.Job.{Job};
ghost use Rattle.tables.specs.Code.Laid.{Counted};
ghost use Rattle.layout.specs.Code.SizedPlan.{PlannedBy};
ghost use Rattle.calls.specs.Performed.{as_answer};

use crate::Response;
use layout::lay_tables;
use layout::updates::{SizedPlan, Updates};
use machine::ready::ready_workers;
use machine::state::State;
use matrix::limits::MAX_ROWS;
use plan::MAX_GROUPS;
use steps::course::{Course, RowCourse};
use tables::{FIRSTS, MAX_UPDATES};

// The bits of a state, and the count of those set.
pub(crate) fn ready_set(state: State, plan: &SizedPlan, first: [u32; FIRSTS]) -> Response
    requires { (j : Job) × PlannedBy j plan.now × Counted j first }
    ensures { (j : Job) (zs : List ℤ) → PlannedBy j plan.now → Counted j first → as_answer (Ok result) zs ≡ ready_of j state.made }
{
    let mut updates = Updates {
        row: [0u16; MAX_UPDATES],
        begins: [0u32; MAX_ROWS],
        leaves: [0u16; MAX_ROWS],
        ends: [0u32; MAX_GROUPS],
    };
    let tables = lay_tables(plan.groups, plan.sizes, &first, &mut updates);
    let made = state.made;
    // A `RowCourse`, so that the begins are proved right here too, though the ready set of one crew looks at none.
    let by_rows = RowCourse {
        course: Course::of(&tables, MAX_ROWS),
    };
    let bits = ready_workers(&made, &by_rows.course);
    Response::Ready(bits, u32::count_ones(bits as u32))
}
