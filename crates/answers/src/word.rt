// The word of an answer to a call on a run.
ghost use Rattle.std.specs.Prelude.{◌≡◌, List, ◌^◌, ◌<◌, ℤ};
ghost use Rattle.run.specs.Answers.{picked};
ghost use Rattle.calls.specs.Performed.{as_answer, end_number, end_place};
ghost use Rattle.answers.specs.Runs.{reply_to, set_in, preview_word, round_word};
ghost use Rattle.answers.specs.Code.Ran.{LowPlace, LowMoves, Looks};
ghost use Rattle.lent.specs.Word.{word};

use base::Refusal;
use calls::{Response, Stop};

// 2 ^ 40 and 2 ^ 48: where the count and the bits of a preview's ready set stand in its word.
const SET_COUNT: u64 = 1099511627776;

const SET_BITS: u64 = 281474976710656;

// The picks taken, or the number and place of the one that ended them.
#[tactic(auto, unfolding(crate::specs::Runs::reply_to, lent::specs::Word::word))]
fn word_of_end(taken: usize, stop: Option<Stop>) -> u64
    requires { end_place stop < 2 ^ 32 }
    ensures { result ≡ word (reply_to (picked taken (end_number stop) (end_place stop))) }
{
    let Some(end) = stop else {
        return taken as u64;
    };
    let place = end.place as u32;
    lent::word::word_of(Err(Refusal {
        kind: end.kind,
        place,
    }))
}

// .. also of a preview; or the bits in the low sixteen, and above them the count of those set; 0 for forces; a
// refusal's number and place.
#[tactic(auto, unfolding(crate::specs::Runs::reply_to, lent::specs::Word::word))]
pub fn word_of(answer: Result<Response, Refusal>) -> u64
    requires { LowPlace answer }
    ensures { (forces : List ℤ) → result ≡ word (reply_to (as_answer answer forces)) }
{
    match answer {
        Ok(response) => match response {
            Response::Picked(taken, stop) => word_of_end(taken, stop),
            Response::Ready(bits, count) => bits as u64 + count as u64 * 65536,
            Response::Forces => 0,
            Response::Previewed(taken, stop, _, _) => word_of_end(taken, stop),
        },
        Err(refusal) => lent::word::word_of(Err(refusal)),
    }
}

// The ready set of a preview: the count from bit 40 on, a bit for each worker from bit 48 on.
#[tactic(auto, unfolding(crate::specs::Runs::set_in))]
fn set_of(answer: Result<Response, Refusal>) -> u64
    requires { Looks answer }
    ensures { (forces : List ℤ) → result ≡ set_in (as_answer answer forces) }
{
    let Ok(seen) = answer else {
        return 0;
    };
    let Response::Previewed(_, _, bits, count) = seen else {
        return 0;
    };
    count as u64 * SET_COUNT + bits as u64 * SET_BITS
}

// The word of a preview: its picks, and above them the ready set afterwards.
pub fn word_of_preview(answer: Result<Response, Refusal>) -> u64
    requires { LowPlace answer }
    ensures { (forces : List ℤ) → result ≡ preview_word (as_answer answer forces) }
{
    word_of(answer) + set_of(answer)
}

// The word of rounds: the moves made, or the number and place of what ended them, and above them the moves made.
#[tactic(auto, unfolding(crate::specs::Runs::round_word))]
pub fn word_of_round(answer: Result<Response, Refusal>) -> u64
    requires { LowMoves answer }
    ensures { (forces : List ℤ) → result ≡ round_word (as_answer answer forces) }
{
    let Ok(response) = answer else {
        return word_of(answer);
    };
    let Response::Picked(taken, stop) = response else {
        return word_of(answer);
    };
    let moves = taken as u64 * 1099511627776;
    let Some(end) = stop else {
        return taken as u64 + moves;
    };
    let why = end.kind.number();
    (end.place % 4294967296) as u64 + why as u64 * 4294967296 + moves
}
