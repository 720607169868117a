// A job prepared once, and the calls on its list.
// Each list and its count comes by itself, as the C interface has it.
ghost use Rattle.std.specs.Prelude.{◌≡◌, ◌/◌, length};
ghost use Rattle.run.specs.Answers.{ready_set, force_list, rounds};
ghost use Rattle.run.specs.Answers as calls;
ghost use Rattle.words.specs.LittleEndian.{unsigned, signed};
ghost use Rattle.lent.specs.Bytes.{matrix_in};
ghost use Rattle.lent.specs.Word.{word};
ghost use Rattle.answers.specs.Runs.{reply_to, ForcesAnswered};
ghost use Rattle.rack.specs.Kept.{PrepareAnswered, answer_kept, KeptPicks, KeptRounds};

// The prepared list of a job.
#[unsafe(no_mangle)]
pub extern "C" fn mzk_prepare(
    n: u32,
    row_starts: &[u8],
    columns: &[u8],
    values: &[u8],
    movements: &[u8],
    order: &[u8],
    groups: &[u8],
    group_count: u32,
    prepared: &mut [u8],
) -> u64
    ensures { PrepareAnswered (matrix_in n row_starts.now columns.now values.now) (signed 4 movements.now) (unsigned 4 order.now) (unsigned 4 groups.now) group_count
        prepared.old result prepared.new }
{
    mazhoketh::prepared_runs::mzk_prepare(
        n,
        row_starts,
        columns,
        values,
        movements,
        order,
        groups,
        group_count,
        prepared,
    )
}

// A list of picks, made one load or store at a time.
#[unsafe(no_mangle)]
pub extern "C" fn mzk_prepared_picks(
    prepared: &[u8],
    state: &mut [u8],
    sums: &mut [u8],
    picks: &[u8],
) -> u64
    ensures { KeptPicks prepared.now state.old sums.old (calls.picks picks.now) result state.new sums.new }
{
    mazhoketh::prepared_runs::mzk_prepared_picks(prepared, state, sums, picks)
}

// .. those whose workers are done or wait are passed over.
#[unsafe(no_mangle)]
pub extern "C" fn mzk_prepared_rounds(
    prepared: &[u8],
    state: &mut [u8],
    sums: &mut [u8],
    picks: &[u8],
) -> u64
    ensures { KeptRounds prepared.now state.old sums.old (rounds picks.now) result state.new sums.new }
{
    mazhoketh::prepared_runs::mzk_prepared_rounds(prepared, state, sums, picks)
}

// The workers whose next pick would be taken.
#[unsafe(no_mangle)]
pub extern "C" fn mzk_prepared_ready(prepared: &[u8], state: &[u8], sums: &[u8]) -> u64
    ensures { result ≡ word (reply_to (answer_kept prepared.now state.now sums.now ready_set)) }
{
    mazhoketh::prepared_runs::mzk_prepared_ready(prepared, state, sums)
}

// The forces of a finished run.
#[unsafe(no_mangle)]
pub extern "C" fn mzk_prepared_forces(
    prepared: &[u8],
    state: &[u8],
    sums: &[u8],
    forces: &mut [u8],
) -> u64
    ensures { ForcesAnswered (answer_kept prepared.now state.now sums.now (force_list (length forces.old / 8))) forces.old result forces.new }
{
    mazhoketh::prepared_runs::mzk_prepared_forces(prepared, state, sums, forces)
}
