// Lists of picks: what they would do, and what they do.
// Each list and its count comes by itself, as the C interface has it.
ghost use Rattle.std.specs.Prelude.{◌≡◌};
ghost use Rattle.run.specs.Answers as calls;
ghost use Rattle.words.specs.LittleEndian.{unsigned, signed};
ghost use Rattle.lent.specs.Bytes.{matrix_in};
ghost use Rattle.answers.specs.Runs.{answer_in, preview_word, LentPicks, LentRounds};

use answers::bytes::{JobBytes, RunBytes};
use answers::word::{word_of, word_of_preview, word_of_round};
use cabinet::{look_in, take_in};
use calls::Call;
use lent::nets::NetBytes;
use lent::plans::PlanBytes;

// The picks that would be taken, what would end them, and who would be ready then.
pub fn mzk_preview(
    n: u32,
    row_starts: &[u8],
    columns: &[u8],
    values: &[u8],
    movements: &[u8],
    order: &[u8],
    groups: &[u8],
    group_count: u32,
    state: &[u8],
    sums: &[u8],
    picks: &[u8],
) -> u64
    ensures { result ≡ preview_word (answer_in (matrix_in n row_starts.now columns.now values.now) (signed 4 movements.now) (unsigned 4 order.now) (unsigned 4 groups.now) group_count state.now sums.now (calls.preview picks.now)) }
{
    let job = JobBytes {
        net: NetBytes {
            n,
            row_starts,
            columns,
            values,
        },
        movements,
        plan: PlanBytes {
            order,
            groups,
            count: group_count,
        },
    };
    let run = RunBytes { state, sums };
    let mut none = [0u8; 0];
    let answer = look_in(&job, &run, picks, &mut none, Call::Preview);
    word_of_preview(answer)
}

// A list of picks, made one load or store at a time.
pub fn mzk_picks(
    n: u32,
    row_starts: &[u8],
    columns: &[u8],
    values: &[u8],
    movements: &[u8],
    order: &[u8],
    groups: &[u8],
    group_count: u32,
    state: &mut [u8],
    sums: &mut [u8],
    picks: &[u8],
) -> u64
    ensures { LentPicks (matrix_in n row_starts.now columns.now values.now) (signed 4 movements.now) (unsigned 4 order.now) (unsigned 4 groups.now) group_count
        state.old sums.old (calls.picks picks.now) result state.new sums.new }
{
    let job = JobBytes {
        net: NetBytes {
            n,
            row_starts,
            columns,
            values,
        },
        movements,
        plan: PlanBytes {
            order,
            groups,
            count: group_count,
        },
    };
    let answer = take_in(&job, state, sums, picks, Call::Picks);
    word_of(answer)
}

// .. those whose workers are done or wait are passed over.
pub fn mzk_rounds(
    n: u32,
    row_starts: &[u8],
    columns: &[u8],
    values: &[u8],
    movements: &[u8],
    order: &[u8],
    groups: &[u8],
    group_count: u32,
    state: &mut [u8],
    sums: &mut [u8],
    picks: &[u8],
) -> u64
    ensures { LentRounds (matrix_in n row_starts.now columns.now values.now) (signed 4 movements.now) (unsigned 4 order.now) (unsigned 4 groups.now) group_count
        state.old sums.old (calls.rounds picks.now) result state.new sums.new }
{
    let job = JobBytes {
        net: NetBytes {
            n,
            row_starts,
            columns,
            values,
        },
        movements,
        plan: PlanBytes {
            order,
            groups,
            count: group_count,
        },
    };
    let answer = take_in(&job, state, sums, picks, Call::Rounds);
    word_of_round(answer)
}
