// What a run tells: who is ready, its forces.
// Each list and its count comes by itself, as the C interface has it.
ghost use Rattle.std.specs.Prelude.{◌≡◌, ◌/◌, length};
ghost use Rattle.run.specs.Answers.{ready_set, force_list};
ghost use Rattle.words.specs.LittleEndian.{unsigned, signed};
ghost use Rattle.lent.specs.Bytes.{matrix_in};
ghost use Rattle.lent.specs.Word.{word};
ghost use Rattle.answers.specs.Runs.{answer_in, reply_to, ForcesAnswered};

// The workers whose next pick would be taken.
#[unsafe(no_mangle)]
pub extern "C" fn mzk_ready(
    n: u32,
    row_starts: &[u8],
    columns: &[u8],
    values: &[u8],
    movements: &[u8],
    order: &[u8],
    groups: &[u8],
    group_count: u32,
    state: &[u8],
    sums: &[u8],
) -> u64
    ensures { result ≡ word (reply_to (answer_in (matrix_in n row_starts.now columns.now values.now) (signed 4 movements.now) (unsigned 4 order.now) (unsigned 4 groups.now) group_count state.now sums.now ready_set)) }
{
    mazhoketh::runs::mzk_ready(
        n,
        row_starts,
        columns,
        values,
        movements,
        order,
        groups,
        group_count,
        state,
        sums,
    )
}

// The forces of a finished run.
#[unsafe(no_mangle)]
pub extern "C" fn mzk_forces(
    n: u32,
    row_starts: &[u8],
    columns: &[u8],
    values: &[u8],
    movements: &[u8],
    order: &[u8],
    groups: &[u8],
    group_count: u32,
    state: &[u8],
    sums: &[u8],
    forces: &mut [u8],
) -> u64
    ensures { ForcesAnswered (answer_in (matrix_in n row_starts.now columns.now values.now) (signed 4 movements.now) (unsigned 4 order.now) (unsigned 4 groups.now) group_count
        state.now sums.now (force_list (length forces.old / 8))) forces.old result forces.new }
{
    mazhoketh::runs::mzk_forces(
        n,
        row_starts,
        columns,
        values,
        movements,
        order,
        groups,
        group_count,
        state,
        sums,
        forces,
    )
}
