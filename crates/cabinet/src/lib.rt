// A call on a run whose lists stand in bytes: numbers are decoded into arrays, the proved call is made. What is called
// is a value, a `Call`, since the clause of `calls::perform` speaks of it: `as_call` gives the call of the definitions.
#![tactic(auto)]

ghost use Rattle.std.specs.Prelude.{◌≡◌, ◌/◌, ◌≤◌, length};
ghost use Rattle.matrix.specs.Code.Room.{max_cells, Reaches};
ghost use Rattle.machine.specs.Record.{state_of};
ghost use Rattle.calls.specs.Performed.{as_call};
ghost use Rattle.words.specs.LittleEndian.{unsigned, signed};
ghost use Rattle.lent.specs.Code.Nets.{net_of};
ghost use Rattle.answers.specs.Code.Ran.{Called, RanLent, TookLent, GaveLent};

use answers::bytes::{JobBytes, RunBytes};
use answers::state::{load_state, load_sums};
use answers::stored::{store_forces, store_picks};
use base::Refusal;
use calls::{Call, Job, Response, perform};
use lent::few::{FEW_CELLS, are_few};
use lent::lists::decode;
use lent::nets::SizedNet;
use machine::state::State;
use matrix::limits::{MAX_CELLS, MAX_ROWS, MAX_STARTS};
use plan::fields::MAX_FIELDS;

// With arrays of so many columns and values, in a frame of their own: it is short for a net with few. The lists of the
// job are decoded as far as any job can reach. Forces are stored.
#[inline(never)]
fn perform_with<const CELLS: usize>(
    job: &JobBytes,
    state: &mut State,
    sums: &mut [i64],
    schedule: &[u8],
    forces: &mut [u8],
    call: Call,
) -> Result<Response, Refusal>
    requires { (CELLS ≤ max_cells) × Reaches CELLS (length job.now.net.columns.now / 4) × Reaches CELLS (length job.now.net.values.now / 4) }
    ensures { Called (net_of job.now.net) (signed 4 job.now.movements.now) (unsigned 4 job.now.plan.order.now) (unsigned 4 job.now.plan.groups.now) job.now.plan.count
        (state_of state.old sums.old) (as_call call schedule.now (length forces.old / 8)) forces.old result (state_of state.new sums.new) forces.new }
{
    let mut starts = [0u32; MAX_STARTS];
    let mut columns = [0u32; CELLS];
    let mut values = [0i32; CELLS];
    let mut displacements = [0i32; MAX_STARTS];
    let mut order = [0u32; MAX_ROWS];
    let mut groups = [0u32; MAX_FIELDS];
    let mut made = [0i64; MAX_ROWS];
    let room = (forces.len() / 8).min(MAX_ROWS);
    let net = SizedNet::<CELLS> { net: job.net };
    let decoded = Job {
        matrix: net.decode(&mut starts, &mut columns, &mut values),
        displacements: decode(job.movements, &mut displacements),
        plan: job.plan.decode(&mut order, &mut groups),
    };
    let answer = perform(&decoded, state, sums, schedule, &mut made[..room], call);
    store_forces(job.net.n, answer, &made, forces);
    answer
}

// State and sums are decoded.
fn perform_on(
    job: &JobBytes,
    state: &mut State,
    sums: &mut [i64],
    schedule: &[u8],
    forces: &mut [u8],
    call: Call,
) -> Result<Response, Refusal>
    ensures { Called (net_of job.now.net) (signed 4 job.now.movements.now) (unsigned 4 job.now.plan.order.now) (unsigned 4 job.now.plan.groups.now) job.now.plan.count
        (state_of state.old sums.old) (as_call call schedule.now (length forces.old / 8)) forces.old result (state_of state.new sums.new) forces.new }
{
    if are_few(job.net.columns, job.net.values) {
        perform_with::<FEW_CELLS>(job, state, sums, schedule, forces, call)
    } else {
        perform_with::<MAX_CELLS>(job, state, sums, schedule, forces, call)
    }
}

// State and sums are decoded, as far as any job can reach; the sums into `new`, where they are left. Forces are stored.
fn perform_in(
    job: &JobBytes,
    run: &RunBytes,
    new: &mut [i64; MAX_STARTS],
    schedule: &[u8],
    forces: &mut [u8],
    call: Call,
) -> (Result<Response, Refusal>, State)
    ensures { RanLent (net_of job.now.net) (signed 4 job.now.movements.now) (unsigned 4 job.now.plan.order.now) (unsigned 4 job.now.plan.groups.now) job.now.plan.count
        run.now.state.now run.now.sums.now forces.old (as_call call schedule.now (length forces.old / 8)) result.0 result.1 new.new forces.new }
{
    let kept = load_sums(run.state, run.sums, new);
    let mut after = load_state(run.state);
    let answer = perform_on(job, &mut after, &mut new[..kept], schedule, forces, call);
    (answer, after)
}

// Picks or rounds: state and sums are stored. These two come by themselves, not in a struct of two `&mut`: of such a
// struct each clause would have to say besides that it still holds the same lists.
pub fn take_in(
    job: &JobBytes,
    state: &mut [u8],
    sums: &mut [u8],
    schedule: &[u8],
    call: Call,
) -> Result<Response, Refusal>
    ensures { TookLent (net_of job.now.net) (signed 4 job.now.movements.now) (unsigned 4 job.now.plan.order.now) (unsigned 4 job.now.plan.groups.now) job.now.plan.count
        state.old sums.old (as_call call schedule.now 0) result state.new sums.new }
{
    let mut new = [0i64; MAX_STARTS];
    let mut none = [0u8; 0];
    let run = RunBytes { state, sums };
    let (answer, after) = perform_in(job, &run, &mut new, schedule, &mut none, call);
    store_picks(job.net.n, answer, after, &new, state, sums);
    answer
}

// A call that leaves state and sums. Forces are stored.
pub fn look_in(
    job: &JobBytes,
    run: &RunBytes,
    schedule: &[u8],
    forces: &mut [u8],
    call: Call,
) -> Result<Response, Refusal>
    ensures { GaveLent (net_of job.now.net) (signed 4 job.now.movements.now) (unsigned 4 job.now.plan.order.now) (unsigned 4 job.now.plan.groups.now) job.now.plan.count
        run.now.state.now run.now.sums.now (as_call call schedule.now (length forces.old / 8)) forces.old result forces.new }
{
    let mut new = [0i64; MAX_STARTS];
    let (answer, _) = perform_in(job, run, &mut new, schedule, forces, call);
    answer
}
