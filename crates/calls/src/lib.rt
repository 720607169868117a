// A call on a run, by the lists that a caller lends: the checks, then what is asked.
#![tactic(auto)]

mod force_list;
mod laid;
mod picks;
mod ready_set;
mod short;

ghost use Rattle.std.specs.Prelude.{◌≡◌, ◌≢◌, false, List, ℕ, ◌*◌, ◌/◌, length, take};
ghost use Rattle.base.specs.Replies.{accepted, refused, in_turn};
ghost use Rattle.base.specs.Verdicts.{reply_of_check};
ghost use Rattle.matrix.specs.Held.{held};
ghost use Rattle.run.specs.Calls.{place_of, job_checks};
ghost use Rattle.machine.specs.Record.{state_of};
ghost use Rattle.machine.specs.Code.Stepped.{stop_number};
ghost use Rattle.calls.specs.declared.Call.TheVariants.{Preview};
ghost use Rattle.calls.specs.Performed.{as_call, as_answer, end_number, end_place, Performed};
ghost use Rattle.calls.specs.Code.Held.{job_in, GivenIn};
ghost use Rattle.calls.specs.Code.Made.{is_taken, Made};

use base::{Kind, Refusal};
use force_list::force_list;
use layout::counts::first_updates;
use layout::updates::SizedPlan;
use machine::state::State;
use matrix::limits::MAX_ROWS;
use matrix::lists::Matrix;
use multiply::check_displacements;
use picks::{is_taken, picks, preview};
use plan::fields::{WIDTH, get};
use plan::lists::Plan;
use ready_set::ready_set;
use sound::is_plan;
use symmetric::is_matrix;
use upper::sizes::sizes_of;
use upper::triangle::OrderedMatrix;

// A job by its lists: a matrix, the displacement of each row, and a plan.
#[derive(Clone, Copy)]
pub struct Job<'a> {
    pub matrix: Matrix<'a>,
    pub displacements: &'a [i32],
    pub plan: Plan<'a>,
}

// What is asked of a run: that it take the picks of a lent schedule, who is ready, its forces for a lent list, what
// the picks of a lent schedule would do, that it take those of them whose workers can move. A value that is handed down
// and no closure: `Performed`, the clause of every call on a run, speaks of it as one, by `as_call`.
#[derive(Clone, Copy)]
pub enum Call {
    Picks,
    ReadySet,
    ForceList,
    Preview,
    Rounds,
}

// What ended picks, and the index of the pick that was refused so.
#[derive(Clone, Copy)]
pub struct Stop {
    pub kind: Kind,
    pub place: usize,
}

// The answer: picks taken, and what ended them, if a pick was refused; a bit for each worker, and their count; forces,
// which stand in the lent list; or picks with what ended them, and the bits and count after them.
#[derive(Clone, Copy)]
pub enum Response {
    Picked(usize, Option<Stop>),
    Ready(u16, u32),
    Forces,
    Previewed(usize, Option<Stop>, u16, u32),
}

// What ended picks, if a pick did: the one after so many that were gone through.
pub fn stop_of(stop: Option<Kind>, past: usize) -> Option<Stop>
    ensures { (end_number result ≡ stop_number stop) × (end_place result ≡ place_of (stop_number stop) past) }
{
    let kind = stop?;
    Some(Stop { kind, place: past })
}

// 5, 6, 8: whether the lists hold a matrix, its displacements and a plan that is sound for it.
pub fn check_job(job: &Job) -> Result<(), Refusal>
    ensures { reply_of_check result ≡ in_turn refused (job_checks (held job.now.matrix) job.now.displacements.now
        job.now.plan.order.now job.now.plan.groups.now job.now.plan.count) (accepted 0) }
{
    if !is_matrix(&job.matrix) {
        return Err(Refusal {
            kind: Kind::NotMatrix,
            place: 0,
        });
    }
    check_displacements(job.matrix.n as u32, job.displacements)?;
    if !is_plan(&job.matrix, &job.plan) {
        return Err(Refusal {
            kind: Kind::Unsound,
            place: 0,
        });
    }
    Ok(())
}

// What is asked of a run that stays as it is, if the counts are those of a state. There is a sum for each row. In a
// frame of its own: its arrays are not needed while picks are taken.
#[inline(never)]
fn report(
    job: &Job,
    state: State,
    sums: &[i64],
    forces: &mut [i64],
    call: Call,
) -> Result<Response, Refusal>
    requires { GivenIn job.now × (length sums.now ≡ job.now.matrix.n) }
    ensures { (schedule : List ℕ) → is_taken call ≡ false → call ≢ Preview → Made (job_in job.now)
        (state_of state sums.now) (as_call call schedule (length forces.old)) forces.old
        (as_answer result (take job.now.matrix.n forces.new)) (state_of state sums.now) forces.new }
{
    let ordered = OrderedMatrix {
        m: job.matrix,
        order: job.plan.order,
    };
    let mut position = [0u32; MAX_ROWS];
    let mut sizes = [0u32; MAX_ROWS];
    sizes_of(&ordered, &mut position, &mut sizes);
    let plan = SizedPlan {
        groups: job.plan.groups,
        sizes: &sizes,
    };
    let first = first_updates(plan.groups, plan.groups.len() / WIDTH, plan.sizes);
    if !state.is_fine(first) {
        return Err(Refusal {
            kind: Kind::NotState,
            place: 0,
        });
    }
    let Call::ForceList = call else {
        return Ok(ready_set(state, &plan, first));
    };
    let whole = get(plan.groups, 0);
    let is_over = state.is_finished(first, whole.workers as usize);
    force_list(job.plan.order, is_over, sums, forces)
}

// One call. A call that names no picks is lent an empty schedule, and one that asks for no forces an empty list.
pub fn perform(
    job: &Job,
    state: &mut State,
    sums: &mut [i64],
    schedule: &[u8],
    forces: &mut [i64],
    call: Call,
) -> Result<Response, Refusal>
    ensures { Performed (held job.now.matrix) job.now.displacements.now job.now.plan.order.now job.now.plan.groups.now job.now.plan.count
        (state_of state.old sums.old) (as_call call schedule.now (length forces.old)) forces.old
        (as_answer result (take job.now.matrix.n forces.new)) (state_of state.new sums.new) forces.new }
{
    check_job(job)?;
    if sums.len() != job.matrix.n {
        return Err(Refusal {
            kind: Kind::NotState,
            place: 0,
        });
    }
    let records = &job.plan.groups[..WIDTH * job.plan.count];
    let cut = Job {
        matrix: job.matrix,
        displacements: job.displacements,
        plan: Plan {
            order: job.plan.order,
            groups: records,
            count: job.plan.count,
        },
    };
    if is_taken(call) {
        return picks(&cut, state, sums, schedule, call);
    }
    if let Call::Preview = call {
        return preview(&cut, *state, sums, schedule);
    }
    report(&cut, *state, sums, forces, call)
}
