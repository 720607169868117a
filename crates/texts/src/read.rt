// read: the matrix of a text.
ghost use Rattle.base.specs.Verdicts.{reply_of};
ghost use Rattle.lent.specs.Word.{word};
ghost use Rattle.texts.specs.Lent.{ReadAnswered};
ghost use Rattle.texts.specs.Code.Room.{Ample};

use base::Refusal;
use lent::few::{FEW_CELLS, are_few};
use lent::word::word_of;
use matrix::limits::{MAX_CELLS, MAX_STARTS};
use reader::read;
use words::lists::store;

// The matrix is made in arrays with room for so many columns and values, as far as the lent lists have room; then it is
// stored. Arrays of each size have a frame of their own.
#[inline(never)]
fn read_with<const CELLS: usize>(
    text: &[u8],
    row_starts: &mut [u8],
    columns: &mut [u8],
    values: &mut [u8],
) -> Result<u32, Refusal>
    requires { Ample CELLS columns.old × Ample CELLS values.old }
    ensures { ReadAnswered text.now row_starts.old columns.old values.old (word (reply_of result)) row_starts.new columns.new values.new }
{
    let mut starts = [0u32; MAX_STARTS];
    let mut column_list = [0u32; CELLS];
    let mut value_list = [0i32; CELLS];
    let starts_room = (row_starts.len() / 4).min(MAX_STARTS);
    let columns_room = (columns.len() / 4).min(CELLS);
    let values_room = (values.len() / 4).min(CELLS);
    let n = read(
        text,
        &mut starts[..starts_room],
        &mut column_list[..columns_room],
        &mut value_list[..values_room],
    )?;
    let rows = n as usize;
    let entries = starts[rows] as usize;
    store(&starts[..rows + 1], row_starts);
    store(&column_list[..entries], columns);
    store(&value_list[..entries], values);
    Ok(n)
}

pub fn read_in(text: &[u8], row_starts: &mut [u8], columns: &mut [u8], values: &mut [u8]) -> u64
    ensures { ReadAnswered text.now row_starts.old columns.old values.old result row_starts.new columns.new values.new }
{
    word_of(if are_few(columns, values) {
        read_with::<FEW_CELLS>(text, row_starts, columns, values)
    } else {
        read_with::<MAX_CELLS>(text, row_starts, columns, values)
    })
}
