// Two nets sewn together.
// Each list and its count comes by itself, as the C interface has it.
ghost use Rattle.words.specs.LittleEndian.{unsigned};
ghost use Rattle.lent.specs.Bytes.{matrix_in};
ghost use Rattle.shop.specs.Lent.{JoinAnswered};

use lent::nets::NetBytes;
use shop::sew::join_in;

// The joined net of two nets and the places of the second's rows.
pub fn mzk_join(
    n1: u32,
    row_starts1: &[u8],
    columns1: &[u8],
    values1: &[u8],
    n2: u32,
    row_starts2: &[u8],
    columns2: &[u8],
    values2: &[u8],
    places: &[u8],
    row_starts: &mut [u8],
    columns: &mut [u8],
    values: &mut [u8],
) -> u64
    ensures { JoinAnswered (matrix_in n1 row_starts1.now columns1.now values1.now) (matrix_in n2 row_starts2.now columns2.now values2.now) (unsigned 4 places.now) row_starts.old columns.old values.old result row_starts.new columns.new values.new }
{
    let first = NetBytes {
        n: n1,
        row_starts: row_starts1,
        columns: columns1,
        values: values1,
    };
    let second = NetBytes {
        n: n2,
        row_starts: row_starts2,
        columns: columns2,
        values: values2,
    };
    join_in(&first, &second, places, row_starts, columns, values)
}
