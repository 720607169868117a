// The calls on a prepared list and a run whose state and sums stand in bytes: the sums are changed in place. And
// how such a list is made.
#![tactic(auto)]

pub mod prepare;

ghost use Rattle.std.specs.Prelude.{◌≡◌, Result, Ok, List, [], ◌%◌, ◌^◌, ℤ};
ghost use Rattle.run.specs.Answers.{picked, ready_set};
ghost use Rattle.run.specs.Calls.{place_of};
ghost use Rattle.machine.specs.Code.Stepped.{stop_number};
ghost use Rattle.calls.specs.Performed.{as_answer};
ghost use Rattle.answers.specs.Code.Ran.{LowPlace};
ghost use Rattle.rack.specs.Kept.{answer_kept};
ghost use Rattle.rack.specs.Code.Taken.{takes, TookKept, GaveKept};
ghost use Rattle.rack.specs.Code.Admitted.{IsAdmitted};

use answers::bytes::RunBytes;
use answers::state::{STATE_BYTES, load_state, store_state};
use base::{Kind, Refusal};
use calls::{Response, stop_of};
use machine::state::{Rule, State, Walked};
use picking::forces::store_forces;
use picking::head::{Sizes, is_fine, is_over, is_prepared, sizes_of};
use picking::walk::{ready_bits, walk};

// What a prepared list's head says, and the state of a run that fits it.
#[derive(Clone, Copy)]
struct Admitted {
    sizes: Sizes,
    before: State,
}

const NOT_PREPARED: Refusal = Refusal {
    kind: Kind::NotPrepared,
    place: 0,
};

const NOT_STATE: Refusal = Refusal {
    kind: Kind::NotState,
    place: 0,
};

// 26 and 11: what every call is refused for.
fn admit(list: &[u8], run: &RunBytes) -> Result<Admitted, Refusal>
    ensures { IsAdmitted list.now run.now.state.now run.now.sums.now result }
{
    if !is_prepared(list) {
        return Err(NOT_PREPARED);
    }
    if run.state.len() != STATE_BYTES {
        return Err(NOT_STATE);
    }
    let sizes = sizes_of(list);
    if run.sums.len() / 8 != sizes.rows {
        return Err(NOT_STATE);
    }
    let before = load_state(run.state);
    if !is_fine(list, &before.made) {
        return Err(NOT_STATE);
    }
    Ok(Admitted { sizes, before })
}

// 2 ^ 24 and 2 ^ 32: past these a word has no room for moves and for an index.
const MOVES: usize = 16777216;

const PLACES: usize = 4294967296;

// What is told of a schedule.
fn told(walked: Walked) -> Response
    ensures { as_answer (Ok result) [] ≡ picked (walked.taken % 2 ^ 24) (stop_number walked.stop) (place_of (stop_number walked.stop) walked.past % 2 ^ 32) }
{
    let stop = stop_of(walked.stop, walked.past % PLACES);
    Response::Picked(walked.taken % MOVES, stop)
}

// Takes the picks of a schedule. The rule is a value, since `takes` of the clause and `passes_over` of `walk` read it.
// State and sums are written, so they come by themselves: of a struct of two `&mut` each clause would have to say
// besides that it still holds the same lists.
pub fn take(
    list: &[u8],
    state: &mut [u8],
    sums: &mut [u8],
    schedule: &[u8],
    rule: Rule,
) -> Result<Response, Refusal>
    ensures { TookKept list.now state.old sums.old (takes rule schedule.now) result state.new sums.new }
{
    let Admitted { sizes, before } = admit(list, &RunBytes { state, sums })?;
    let walked = walk(list, sizes, before, sums, schedule, rule);
    let after = walked.state;
    store_state(after, state);
    Ok(told(walked))
}

// Who is ready.
pub fn ready(list: &[u8], run: &RunBytes) -> Result<Response, Refusal>
    ensures { ((zs : List ℤ) → as_answer result zs ≡ answer_kept list.now run.now.state.now run.now.sums.now ready_set) × LowPlace result }
{
    let Admitted { sizes, before } = admit(list, run)?;
    let bits = ready_bits(list, sizes, &before.made);
    Ok(Response::Ready(bits, u32::count_ones(bits as u32)))
}

// The forces of a finished run.
pub fn forces(list: &[u8], run: &RunBytes, forces: &mut [u8]) -> Result<Response, Refusal>
    ensures { GaveKept list.now run.now.state.now run.now.sums.now forces.old result forces.new }
{
    let Admitted { sizes, before } = admit(list, run)?;
    if !is_over(list, sizes.crew, &before.made) {
        return Err(Refusal {
            kind: Kind::TooEarly,
            place: 0,
        });
    }
    let rows = sizes.rows;
    if forces.len() / 8 < rows {
        return Err(Refusal {
            kind: Kind::TooShort,
            place: rows as u32,
        });
    }
    store_forces(list, sizes, run.sums, forces);
    Ok(Response::Forces)
}
