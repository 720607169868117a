// The calls for two crews on one set of cores.
// Each list and its count comes by itself, as the C interface has it.
ghost use Rattle.std.specs.Prelude.{◌≡◌};
ghost use Rattle.crews.specs.Calls.{picks_both, ready_sets, after_both_lent};
ghost use Rattle.words.specs.LittleEndian.{unsigned, signed};
ghost use Rattle.lent.specs.Bytes.{matrix_in};
ghost use Rattle.lent.specs.Word.{word};
ghost use Rattle.quarters.specs.Both.{states_in, answer_both_in, reply_to_both, PicksBothAnswered};

use answers::state::sums_of;
use lent::nets::NetBytes;
use lent::plans::PlanBytes;
use quarters::bytes::{RoofBytes, load_crews};
use quarters::{picks_both_in, ready_both_in};

// A list of picks for both, made one load or store at a time.
pub fn mzk_picks_both(
    n: u32,
    row_starts: &[u8],
    columns: &[u8],
    values: &[u8],
    movements0: &[u8],
    movements1: &[u8],
    order: &[u8],
    groups: &[u8],
    group_count: u32,
    state0: &mut [u8],
    sums0: &mut [u8],
    state1: &mut [u8],
    sums1: &mut [u8],
    picks: &[u8],
) -> u64
    ensures { PicksBothAnswered
        (answer_both_in (matrix_in n row_starts.now columns.now values.now) (record { of0 = signed 4 movements0.now; of1 = signed 4 movements1.now }) (unsigned 4 order.now) (unsigned 4 groups.now) group_count
        (record { of0 = record { state = state0.old; sums = sums0.old }; of1 = record { state = state1.old; sums = sums1.old } }) (picks_both picks.now))
        (after_both_lent (matrix_in n row_starts.now columns.now values.now) (record { of0 = signed 4 movements0.now; of1 = signed 4 movements1.now }) (unsigned 4 order.now) (unsigned 4 groups.now) group_count
        (states_in (record { of0 = record { state = state0.old; sums = sums0.old }; of1 = record { state = state1.old; sums = sums1.old } })) (picks_both picks.now))
        (record { of0 = record { state = state0.old; sums = sums0.old }; of1 = record { state = state1.old; sums = sums1.old } }) result
        (record { of0 = record { state = state0.new; sums = sums0.new }; of1 = record { state = state1.new; sums = sums1.new } }) }
{
    let roof = RoofBytes {
        net: NetBytes {
            n,
            row_starts,
            columns,
            values,
        },
        movements0,
        movements1,
        plan: PlanBytes {
            order,
            groups,
            count: group_count,
        },
    };
    picks_both_in(&roof, state0, sums0, state1, sums1, picks)
}

// The workers of each whose next pick would be taken.
pub fn mzk_ready_both(
    n: u32,
    row_starts: &[u8],
    columns: &[u8],
    values: &[u8],
    movements0: &[u8],
    movements1: &[u8],
    order: &[u8],
    groups: &[u8],
    group_count: u32,
    state0: &[u8],
    sums0: &[u8],
    state1: &[u8],
    sums1: &[u8],
) -> u64
    ensures { result ≡ word (reply_to_both (answer_both_in (matrix_in n row_starts.now columns.now values.now) (record { of0 = signed 4 movements0.now; of1 = signed 4 movements1.now }) (unsigned 4 order.now) (unsigned 4 groups.now) group_count
        (record { of0 = record { state = state0.now; sums = sums0.now }; of1 = record { state = state1.now; sums = sums1.now } }) ready_sets)) }
{
    let roof = RoofBytes {
        net: NetBytes {
            n,
            row_starts,
            columns,
            values,
        },
        movements0,
        movements1,
        plan: PlanBytes {
            order,
            groups,
            count: group_count,
        },
    };
    ready_both_in(
        &roof,
        load_crews(state0, state1),
        sums_of(state0, sums0),
        sums_of(state1, sums1),
    )
}
