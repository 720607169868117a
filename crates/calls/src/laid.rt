// Picks by the tables of their job, laid as far as the schedule reads them.
ghost use Rattle.std.specs.Prelude.{◌≡◌, ◌≢◌, List, ℕ, ◌^◌, ◌<◌, ℤ, length, get_or, MatchOption};
ghost use Rattle.tables.specs.Code.Laid.{max_updates};
ghost use Rattle.machine.specs.Record.{state_of};
ghost use Rattle.calls.specs.Performed.{as_answer};
ghost use Rattle.calls.specs.Code.Held.{job_in, GivenIn};
ghost use Rattle.calls.specs.Code.Made.{Taken};

use crate::picks::{rule_of, told};
use crate::{Call, Job, Response, stop_of};
use ahead::{lay_ahead, lay_sizes};
use base::{Kind, Refusal};
use layout::counts::first_updates;
use layout::lay_tables;
use layout::updates::Updates;
use machine::ready::ready_workers;
use machine::state::State;
use matrix::limits::MAX_ROWS;
use plan::MAX_GROUPS;
use plan::fields::WIDTH;
use steps::course::{Course, Work};
use tables::{Entries, MAX_UPDATES};
use upper::order::displace;
use upper::triangle::{OrderedMatrix, Rows, Triangle};

// Lays the tables and takes the picks. There is a sum for each row, and room for the upper triangle of every matrix, or
// less: then the parts of the rows that the schedule can reach are laid, if they fit. If they do not, all is as it was.
// In a frame of its own, for each size of the room.
#[inline(never)]
pub(crate) fn laid_picks<const N: usize>(
    job: &Job,
    state: &mut State,
    sums: &mut [i64],
    schedule: &[u8],
    call: Call,
    triangle: &mut Triangle<N>,
) -> Option<Result<Response, Refusal>>
    requires { GivenIn job.now × (length sums.old ≡ job.now.matrix.n)
        × ((p : ℕ) → get_or triangle.old.parts p 0 ≡ 0) × ((k : ℕ) → get_or triangle.old.at k 0 ≡ 0)
        × (N < max_updates → length schedule.now < 2 ^ 32) }
    ensures { MatchOption result ((state.new ≡ state.old) × (sums.new ≡ sums.old) × (N ≢ max_updates))
        (λ answer. (zs : List ℤ) → Taken (job_in job.now) (state_of state.old sums.old) call schedule.now (as_answer answer zs) (state_of state.new sums.new)) }
{
    let order = job.plan.order;
    let ordered = OrderedMatrix {
        m: job.matrix,
        order,
    };
    let mut position = [0u32; MAX_ROWS];
    let mut sizes = [0u32; MAX_ROWS];
    lay_sizes(&ordered, &mut position, &mut sizes, triangle);
    let groups = job.plan.groups;
    let first = first_updates(groups, groups.len() / WIDTH, &sizes);
    if !state.is_fine(first) {
        return Some(Err(Refusal {
            kind: Kind::NotState,
            place: 0,
        }));
    }
    let mut updates = Updates {
        row: [0u16; MAX_UPDATES],
        begins: [0u32; MAX_ROWS],
        leaves: [0u16; MAX_ROWS],
        ends: [0u32; MAX_GROUPS],
    };
    let tables = lay_tables(groups, &sizes, &first, &mut updates);
    let counts = state.made;
    let rows = Rows {
        ordered,
        position: &position,
        sizes: &sizes,
    };
    if !lay_ahead(&rows, &tables, &counts, schedule.len(), triangle) {
        return None;
    }
    let mut displaced = [0i32; MAX_ROWS];
    displace(job.displacements, order, &mut displaced);
    let course = Course::of(&tables, sums.len());
    let work = Work {
        course,
        entries: Entries {
            parts: &triangle.parts,
            at: &triangle.at,
            beside: &triangle.beside,
        },
        displaced: &displaced,
    };
    let walked = state.walk(sums, schedule, rule_of(call), &work);
    *state = walked.state;
    let made = walked.state.made;
    let ready = ready_workers(&made, &course);
    let stop = stop_of(walked.stop, walked.past);
    Some(Ok(told(call, walked.taken, stop, ready)))
}
