// The calls for two crews whose lists stand in bytes: numbers are decoded into arrays, the proved call is made
// (document 02, Q-9).
#![tactic(auto)]

pub mod bytes;
mod word;

ghost use Rattle.std.specs.Prelude.{◌≡◌};
ghost use Rattle.crews.specs.Crews.{Two};
ghost use Rattle.crews.specs.Calls.{picks_both, ready_sets, after_both_lent};
ghost use Rattle.words.specs.LittleEndian.{unsigned};
ghost use Rattle.lent.specs.Word.{word};
ghost use Rattle.lent.specs.Code.Nets.{net_of};
ghost use Rattle.answers.specs.Runs.{Bytes};
ghost use Rattle.quarters.specs.Both.{states_in, answer_both_in, reply_to_both, PicksBothAnswered};
ghost use Rattle.quarters.specs.Code.Loaded.{CrewsLent, movements_of};

use answers::state::load_sums;
use answers::stored::store_picks;
use answers::word::word_of;
use bytes::{RoofBytes, load_crews};
use lent::lists::decode;
use lent::nets::SizedNet;
use matrix::limits::{MAX_CELLS, MAX_ROWS, MAX_STARTS};
use plan::fields::MAX_FIELDS;
use shared::{Roof, picks_both, ready_both};
use turns::Crews;
use word::word_of_sets;
use words::lists::load;

// A list of picks for both. The lists are decoded as far as any roof can reach. States and sums are stored as the
// picks that were taken left them, each crew's over its own. They are written, so they come by themselves.
pub fn picks_both_in(
    roof: &RoofBytes,
    state0: &mut [u8],
    sums0: &mut [u8],
    state1: &mut [u8],
    sums1: &mut [u8],
    picks: &[u8],
) -> u64
    ensures { PicksBothAnswered
        (answer_both_in (net_of roof.now.net) (movements_of roof.now) (unsigned 4 roof.now.plan.order.now) (unsigned 4 roof.now.plan.groups.now) roof.now.plan.count
        (record { of0 = record { state = state0.old; sums = sums0.old }; of1 = record { state = state1.old; sums = sums1.old } }) (picks_both picks.now))
        (after_both_lent (net_of roof.now.net) (movements_of roof.now) (unsigned 4 roof.now.plan.order.now) (unsigned 4 roof.now.plan.groups.now) roof.now.plan.count
        (states_in (record { of0 = record { state = state0.old; sums = sums0.old }; of1 = record { state = state1.old; sums = sums1.old } })) (picks_both picks.now))
        (record { of0 = record { state = state0.old; sums = sums0.old }; of1 = record { state = state1.old; sums = sums1.old } }) result
        (record { of0 = record { state = state0.new; sums = sums0.new }; of1 = record { state = state1.new; sums = sums1.new } }) }
{
    let mut new0 = [0i64; MAX_STARTS];
    let mut new1 = [0i64; MAX_STARTS];
    let mut starts = [0u32; MAX_STARTS];
    let mut columns = [0u32; MAX_CELLS];
    let mut values = [0i32; MAX_CELLS];
    let mut displacements0 = [0i32; MAX_STARTS];
    let mut displacements1 = [0i32; MAX_STARTS];
    let mut order = [0u32; MAX_ROWS];
    let mut groups = [0u32; MAX_FIELDS];
    let kept0 = load_sums(state0, sums0, &mut new0);
    let kept1 = load_sums(state1, sums1, &mut new1);
    let mut crews = load_crews(state0, state1);
    let net = SizedNet::<MAX_CELLS> { net: roof.net };
    let decoded = Roof {
        matrix: net.decode(&mut starts, &mut columns, &mut values),
        displacements0: decode(roof.movements0, &mut displacements0),
        displacements1: decode(roof.movements1, &mut displacements1),
        plan: roof.plan.decode(&mut order, &mut groups),
    };
    let answer = picks_both(
        &decoded,
        &mut crews,
        &mut new0[..kept0],
        &mut new1[..kept1],
        picks,
    );
    let n = roof.net.n;
    store_picks(n, answer, crews.of0, &new0, state0, sums0);
    store_picks(n, answer, crews.of1, &new1, state1, sums1);
    word_of(answer)
}

// The ready sets of both, whose states are decoded already.
pub fn ready_both_in(roof: &RoofBytes, crews: Crews, sums0: &[u8], sums1: &[u8]) -> u64
    ensures { (b : Two Bytes) → CrewsLent crews sums0.now sums1.now b
        → result ≡ word (reply_to_both (answer_both_in (net_of roof.now.net) (movements_of roof.now) (unsigned 4 roof.now.plan.order.now) (unsigned 4 roof.now.plan.groups.now) roof.now.plan.count
        b ready_sets)) }
{
    let mut starts = [0u32; MAX_STARTS];
    let mut columns = [0u32; MAX_CELLS];
    let mut values = [0i32; MAX_CELLS];
    let mut displacements0 = [0i32; MAX_STARTS];
    let mut displacements1 = [0i32; MAX_STARTS];
    let mut order = [0u32; MAX_ROWS];
    let mut groups = [0u32; MAX_FIELDS];
    let mut new0 = [0i64; MAX_STARTS];
    let mut new1 = [0i64; MAX_STARTS];
    let kept0 = load(sums0, &mut new0);
    let kept1 = load(sums1, &mut new1);
    let net = SizedNet::<MAX_CELLS> { net: roof.net };
    let decoded = Roof {
        matrix: net.decode(&mut starts, &mut columns, &mut values),
        displacements0: decode(roof.movements0, &mut displacements0),
        displacements1: decode(roof.movements1, &mut displacements1),
        plan: roof.plan.decode(&mut order, &mut groups),
    };
    let sets = ready_both(&decoded, crews, &new0[..kept0], &new1[..kept1]);
    word_of_sets(sets)
}
