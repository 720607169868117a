// What a run tells: who is ready, its forces.
// Each list and its count comes by itself, as the C interface has it.
ghost use Rattle.std.specs.Prelude.{◌≡◌, ◌/◌, length};
ghost use Rattle.run.specs.Answers.{ready_set, force_list};
ghost use Rattle.words.specs.LittleEndian.{unsigned, signed};
ghost use Rattle.lent.specs.Bytes.{matrix_in};
ghost use Rattle.lent.specs.Word.{word};
ghost use Rattle.answers.specs.Runs.{answer_in, reply_to, ForcesAnswered};

use answers::bytes::{JobBytes, RunBytes};
use answers::word::word_of;
use cabinet::look_in;
use calls::Call;
use lent::nets::NetBytes;
use lent::plans::PlanBytes;

// The workers whose next pick would be taken.
pub fn mzk_ready(
    n: u32,
    row_starts: &[u8],
    columns: &[u8],
    values: &[u8],
    movements: &[u8],
    order: &[u8],
    groups: &[u8],
    group_count: u32,
    state: &[u8],
    sums: &[u8],
) -> u64
    ensures { result ≡ word (reply_to (answer_in (matrix_in n row_starts.now columns.now values.now) (signed 4 movements.now) (unsigned 4 order.now) (unsigned 4 groups.now) group_count state.now sums.now ready_set)) }
{
    let job = JobBytes {
        net: NetBytes {
            n,
            row_starts,
            columns,
            values,
        },
        movements,
        plan: PlanBytes {
            order,
            groups,
            count: group_count,
        },
    };
    let run = RunBytes { state, sums };
    let mut none = [0u8; 0];
    let answer = look_in(&job, &run, &[], &mut none, Call::ReadySet);
    word_of(answer)
}

// The forces of a finished run.
pub fn mzk_forces(
    n: u32,
    row_starts: &[u8],
    columns: &[u8],
    values: &[u8],
    movements: &[u8],
    order: &[u8],
    groups: &[u8],
    group_count: u32,
    state: &[u8],
    sums: &[u8],
    forces: &mut [u8],
) -> u64
    ensures { ForcesAnswered (answer_in (matrix_in n row_starts.now columns.now values.now) (signed 4 movements.now) (unsigned 4 order.now) (unsigned 4 groups.now) group_count
        state.now sums.now (force_list (length forces.old / 8))) forces.old result forces.new }
{
    let job = JobBytes {
        net: NetBytes {
            n,
            row_starts,
            columns,
            values,
        },
        movements,
        plan: PlanBytes {
            order,
            groups,
            count: group_count,
        },
    };
    let run = RunBytes { state, sums };
    let answer = look_in(&job, &run, &[], forces, Call::ForceList);
    word_of(answer)
}
