// What the answer to a call on a run leaves in the lists that are lent to be written.
ghost use Rattle.std.specs.Prelude.{◌≡◌, take};
ghost use Rattle.base.specs.Replies.{lent};
ghost use Rattle.machine.specs.Record.{state_of};
ghost use Rattle.calls.specs.Performed.{as_answer};
ghost use Rattle.words.specs.LittleEndian.{signed_bytes};
ghost use Rattle.answers.specs.Runs.{reply_to, force_bytes, bytes_in, left_by};
ghost use Rattle.answers.specs.Code.Ran.{PicksFit, ForcesFit};

use crate::state::store_state;
use base::Refusal;
use calls::Response;
use machine::state::State;
use words::lists::store;

// State and sums as the picks that were taken left them. Any other answer leaves both.
#[tactic(auto, unfolding(crate::specs::Runs::left_by))]
pub fn store_picks(
    n: u32,
    answer: Result<Response, Refusal>,
    after: State,
    new: &[i64],
    state: &mut [u8],
    sums: &mut [u8],
)
    requires { PicksFit n answer new.now state.old sums.old }
    ensures state { state.new ≡ left_by (as_answer answer new.now) (bytes_in (state_of after (take n new.now))) state.old }
    ensures sums { sums.new ≡ left_by (as_answer answer new.now) (signed_bytes 8 (take n new.now)) sums.old }
{
    let Ok(taken) = answer else {
        return;
    };
    let Response::Picked(_, _) = taken else {
        return;
    };
    store_state(after, state);
    let rows = n as usize;
    store(&new[..rows], sums);
}

// The forces of an answer that has them. Any other answer leaves the list.
#[tactic(auto, unfolding(crate::specs::Runs::reply_to, crate::specs::Runs::force_bytes, base::specs::Replies::lent))]
pub fn store_forces(n: u32, answer: Result<Response, Refusal>, made: &[i64], forces: &mut [u8])
    requires { ForcesFit n answer made.now forces.old }
    ensures { forces.new ≡ lent (reply_to (as_answer answer (take n made.now))) (force_bytes (as_answer answer (take n made.now))) forces.old }
{
    let Ok(listed) = answer else {
        return;
    };
    let Response::Forces = listed else {
        return;
    };
    let rows = n as usize;
    store(&made[..rows], forces);
}
