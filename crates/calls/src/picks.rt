// The picks of a schedule, by the tables of the job, and what they would do. Which call takes them is a `Call`, the
// value that the clause `Taken` speaks of.
ghost use Rattle.std.specs.Prelude.{◌≡◌, List, Ok, ℤ, length};
ghost use Rattle.std.specs.Int.Count.{ones};
ghost use Rattle.run.specs.Answers as calls;
ghost use Rattle.machine.specs.Record.{state_of};
ghost use Rattle.calls.specs.Performed.{as_answer, end_number, end_place};
ghost use Rattle.calls.specs.Code.Held.{job_in, GivenIn};
ghost use Rattle.calls.specs.Code.Made.{Made, is_taken, rule_of, told_by, Taken};

use crate::laid::laid_picks;
use crate::short::is_short;
use crate::{Call, Job, Response, Stop};
use base::Refusal;
use machine::state::{Rule, State};
use matrix::limits::MAX_ROWS;
use tables::MAX_UPDATES;
use upper::triangle::Triangle;

// Whether a call takes the picks that it names.
pub(crate) fn is_taken(call: Call) -> bool
    ensures { result ≡ is_taken call }
{
    matches!(call, Call::Picks | Call::Rounds)
}

// Whether they are passed over where their workers cannot move.
pub(crate) fn rule_of(call: Call) -> Rule
    ensures { result ≡ rule_of call }
{
    if let Call::Rounds = call {
        return Rule::Skip;
    }
    Rule::Stop
}

// The answer of picks, and of a preview with who is ready after them.
pub(crate) fn told(call: Call, taken: usize, stop: Option<Stop>, ready: u16) -> Response
    ensures { (zs : List ℤ) → as_answer (Ok result) zs ≡ told_by call (calls.picked taken (end_number stop) (end_place stop)) (calls.is_ready ready (ones ready)) }
{
    if let Call::Preview = call {
        return Response::Previewed(taken, stop, ready, u32::count_ones(ready as u32));
    }
    Response::Picked(taken, stop)
}

// The picks that a call takes: in small tables if the schedule is short and they have room, else in those of every
// matrix. There is a sum for each row.
pub(crate) fn picks(
    job: &Job,
    state: &mut State,
    sums: &mut [i64],
    schedule: &[u8],
    call: Call,
) -> Result<Response, Refusal>
    requires { GivenIn job.now × (length sums.old ≡ job.now.matrix.n) }
    ensures { (zs : List ℤ) → Taken (job_in job.now) (state_of state.old sums.old) call schedule.now (as_answer result zs) (state_of state.new sums.new) }
{
    if is_short(&job.matrix, schedule.len()) {
        let mut few = Triangle {
            parts: [0u32; MAX_ROWS],
            at: [0u16; MAX_ROWS],
            beside: [0i32; MAX_ROWS],
        };
        if let Some(answer) = laid_picks(job, state, sums, schedule, call, &mut few) {
            return answer;
        }
    }
    let mut every = Triangle {
        parts: [0u32; MAX_ROWS],
        at: [0u16; MAX_UPDATES],
        beside: [0i32; MAX_UPDATES],
    };
    laid_picks(job, state, sums, schedule, call, &mut every).unwrap()
}

// What the picks would do: they are taken on a copy of the sums.
pub(crate) fn preview(
    job: &Job,
    state: State,
    sums: &[i64],
    schedule: &[u8],
) -> Result<Response, Refusal>
    requires { GivenIn job.now × (length sums.now ≡ job.now.matrix.n) }
    ensures { (old zs : List ℤ) → Made (job_in job.now) (state_of state sums.now) (calls.preview schedule.now) old (as_answer result zs) (state_of state sums.now) old }
{
    let mut copied = [0i64; MAX_ROWS];
    let copy = &mut copied[..sums.len()];
    copy.copy_from_slice(sums);
    let mut after = state;
    picks(job, &mut after, copy, schedule, Call::Preview)
}
