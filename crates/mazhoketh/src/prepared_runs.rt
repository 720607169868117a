// A job prepared once, and the calls on its list.
// Each list and its count comes by itself, as the C interface has it.
ghost use Rattle.std.specs.Prelude.{◌≡◌, ◌/◌, length};
ghost use Rattle.run.specs.Answers.{ready_set, force_list, rounds};
ghost use Rattle.run.specs.Answers as calls;
ghost use Rattle.words.specs.LittleEndian.{unsigned, signed};
ghost use Rattle.lent.specs.Bytes.{matrix_in};
ghost use Rattle.lent.specs.Word.{word};
ghost use Rattle.answers.specs.Runs.{reply_to, ForcesAnswered};
ghost use Rattle.rack.specs.Kept.{PrepareAnswered, answer_kept, KeptPicks, KeptRounds};

use answers::bytes::{JobBytes, RunBytes};
use answers::word::{word_of, word_of_round};
use lent::nets::NetBytes;
use lent::plans::PlanBytes;
use machine::state::Rule;
use rack::prepare::prepare_in;
use rack::{ready, take};

// The prepared list of a job.
pub fn mzk_prepare(
    n: u32,
    row_starts: &[u8],
    columns: &[u8],
    values: &[u8],
    movements: &[u8],
    order: &[u8],
    groups: &[u8],
    group_count: u32,
    prepared: &mut [u8],
) -> u64
    ensures { PrepareAnswered (matrix_in n row_starts.now columns.now values.now) (signed 4 movements.now) (unsigned 4 order.now) (unsigned 4 groups.now) group_count
        prepared.old result prepared.new }
{
    let job = JobBytes {
        net: NetBytes {
            n,
            row_starts,
            columns,
            values,
        },
        movements,
        plan: PlanBytes {
            order,
            groups,
            count: group_count,
        },
    };
    prepare_in(&job, prepared)
}

// A list of picks, made one load or store at a time.
pub fn mzk_prepared_picks(prepared: &[u8], state: &mut [u8], sums: &mut [u8], picks: &[u8]) -> u64
    ensures { KeptPicks prepared.now state.old sums.old (calls.picks picks.now) result state.new sums.new }
{
    let answer = take(prepared, state, sums, picks, Rule::Stop);
    word_of(answer)
}

// .. those whose workers are done or wait are passed over.
pub fn mzk_prepared_rounds(prepared: &[u8], state: &mut [u8], sums: &mut [u8], picks: &[u8]) -> u64
    ensures { KeptRounds prepared.now state.old sums.old (rounds picks.now) result state.new sums.new }
{
    let answer = take(prepared, state, sums, picks, Rule::Skip);
    word_of_round(answer)
}

// The workers whose next pick would be taken.
pub fn mzk_prepared_ready(prepared: &[u8], state: &[u8], sums: &[u8]) -> u64
    ensures { result ≡ word (reply_to (answer_kept prepared.now state.now sums.now ready_set)) }
{
    let answer = ready(prepared, &RunBytes { state, sums });
    word_of(answer)
}

// The forces of a finished run.
pub fn mzk_prepared_forces(prepared: &[u8], state: &[u8], sums: &[u8], forces: &mut [u8]) -> u64
    ensures { ForcesAnswered (answer_kept prepared.now state.now sums.now (force_list (length forces.old / 8))) forces.old result forces.new }
{
    let answer = rack::forces(prepared, &RunBytes { state, sums }, forces);
    word_of(answer)
}
