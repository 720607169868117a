// Lists of picks: what they would do, and what they do.
// Each list and its count comes by itself, as the C interface has it.
ghost use Rattle.std.specs.Prelude.{◌≡◌};
ghost use Rattle.run.specs.Answers as calls;
ghost use Rattle.words.specs.LittleEndian.{unsigned, signed};
ghost use Rattle.lent.specs.Bytes.{matrix_in};
ghost use Rattle.answers.specs.Runs.{answer_in, preview_word, LentPicks, LentRounds};

// The picks that would be taken, what would end them, and who would be ready then.
#[unsafe(no_mangle)]
pub extern "C" fn mzk_preview(
    n: u32,
    row_starts: &[u8],
    columns: &[u8],
    values: &[u8],
    movements: &[u8],
    order: &[u8],
    groups: &[u8],
    group_count: u32,
    state: &[u8],
    sums: &[u8],
    picks: &[u8],
) -> u64
    ensures { result ≡ preview_word (answer_in (matrix_in n row_starts.now columns.now values.now) (signed 4 movements.now) (unsigned 4 order.now) (unsigned 4 groups.now) group_count state.now sums.now (calls.preview picks.now)) }
{
    mazhoketh::picks::mzk_preview(
        n,
        row_starts,
        columns,
        values,
        movements,
        order,
        groups,
        group_count,
        state,
        sums,
        picks,
    )
}

// A list of picks, made one load or store at a time.
#[unsafe(no_mangle)]
pub extern "C" fn mzk_picks(
    n: u32,
    row_starts: &[u8],
    columns: &[u8],
    values: &[u8],
    movements: &[u8],
    order: &[u8],
    groups: &[u8],
    group_count: u32,
    state: &mut [u8],
    sums: &mut [u8],
    picks: &[u8],
) -> u64
    ensures { LentPicks (matrix_in n row_starts.now columns.now values.now) (signed 4 movements.now) (unsigned 4 order.now) (unsigned 4 groups.now) group_count
        state.old sums.old (calls.picks picks.now) result state.new sums.new }
{
    mazhoketh::picks::mzk_picks(
        n,
        row_starts,
        columns,
        values,
        movements,
        order,
        groups,
        group_count,
        state,
        sums,
        picks,
    )
}

// .. those whose workers are done or wait are passed over.
#[unsafe(no_mangle)]
pub extern "C" fn mzk_rounds(
    n: u32,
    row_starts: &[u8],
    columns: &[u8],
    values: &[u8],
    movements: &[u8],
    order: &[u8],
    groups: &[u8],
    group_count: u32,
    state: &mut [u8],
    sums: &mut [u8],
    picks: &[u8],
) -> u64
    ensures { LentRounds (matrix_in n row_starts.now columns.now values.now) (signed 4 movements.now) (unsigned 4 order.now) (unsigned 4 groups.now) group_count
        state.old sums.old (calls.rounds picks.now) result state.new sums.new }
{
    mazhoketh::picks::mzk_rounds(
        n,
        row_starts,
        columns,
        values,
        movements,
        order,
        groups,
        group_count,
        state,
        sums,
        picks,
    )
}
