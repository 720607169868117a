// How far a survey error reaches.
// Each list and its count comes by itself, as the C interface has it.
ghost use Rattle.words.specs.LittleEndian.{signed};
ghost use Rattle.lent.specs.Bytes.{matrix_in};
ghost use Rattle.desk.specs.Lent.{SurveyAnswered};

// The amount of each row, and the shift that reaches one row's.
#[unsafe(no_mangle)]
pub extern "C" fn mzk_survey(
    n: u32,
    row_starts: &[u8],
    columns: &[u8],
    values: &[u8],
    movements: &[u8],
    t: u32,
    row: u32,
    amounts: &mut [u8],
    shift: &mut [u8],
) -> u64
    ensures { SurveyAnswered (matrix_in n row_starts.now columns.now values.now) (signed 4 movements.now) t row amounts.old shift.old result amounts.new shift.new }
{
    mazhoketh::surveys::mzk_survey(
        n, row_starts, columns, values, movements, t, row, amounts, shift,
    )
}
