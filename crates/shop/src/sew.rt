// join: two nets sewn together.
ghost use Rattle.std.specs.Prelude.{◌+◌, ◌≤◌, length, min};
ghost use Rattle.matrix.specs.Held.{held};
ghost use Rattle.matrix.specs.Code.Room.{max_cells};
ghost use Rattle.words.specs.LittleEndian.{unsigned};
ghost use Rattle.lent.specs.Code.Nets.{net_of};
ghost use Rattle.shop.specs.Lent.{JoinAnswered};
ghost use Rattle.shop.specs.Code.Reach.{Ample};

use joined::join;
use lent::few::{FEW_CELLS, are_few};
use lent::lists::decode;
use lent::nets::{NetBytes, SizedNet};
use lent::word::word_of;
use matrix::limits::{MAX_CELLS, MAX_STARTS};
use matrix::lists::Matrix;
use words::lists::store;

// Room for the cells of a net joined of two with few: it has no more than both.
const FEW_JOINED: usize = 2 * FEW_CELLS;

// Two nets, and the row of the first at which each row of the second is sewn on.
#[derive(Clone, Copy)]
struct Pieces<'a> {
    first: Matrix<'a>,
    second: Matrix<'a>,
    places: &'a [u32],
}

// The joined net is made in arrays that have room for it, as far as the lent lists have; then it is stored.
fn join_of(
    pieces: &Pieces,
    column_list: &mut [u32],
    value_list: &mut [i32],
    row_starts: &mut [u8],
    columns: &mut [u8],
    values: &mut [u8],
) -> u64
    requires { Ample (length pieces.now.first.columns.now) (length pieces.now.second.columns.now) (length column_list.old) × Ample (length pieces.now.first.columns.now) (length pieces.now.second.columns.now) (length value_list.old) }
    ensures { JoinAnswered (held pieces.now.first) (held pieces.now.second) pieces.now.places.now row_starts.old columns.old values.old result row_starts.new columns.new values.new }
{
    let mut starts = [0u32; MAX_STARTS];
    let starts_room = (row_starts.len() / 4).min(MAX_STARTS);
    let columns_room = (columns.len() / 4).min(column_list.len());
    let values_room = (values.len() / 4).min(value_list.len());
    let answer = join(
        &pieces.first,
        &pieces.second,
        pieces.places,
        &mut starts[..starts_room],
        &mut column_list[..columns_room],
        &mut value_list[..values_room],
    );
    let Ok(n) = answer else {
        return word_of(answer);
    };
    let rows = n as usize;
    let entries = starts[rows] as usize;
    store(&starts[..rows + 1], row_starts);
    store(&column_list[..entries], columns);
    store(&value_list[..entries], values);
    word_of(answer)
}

// The nets are decoded into arrays of CELLS columns and values; the joined net's arrays are of ROOM. Arrays of each
// size have a frame of their own.
#[inline(never)]
fn join_within<const CELLS: usize, const ROOM: usize>(
    first: &SizedNet<CELLS>,
    second: &SizedNet<CELLS>,
    places: &[u8],
    row_starts: &mut [u8],
    columns: &mut [u8],
    values: &mut [u8],
) -> u64
    requires { (ROOM ≤ max_cells) × (min (CELLS + CELLS) max_cells ≤ ROOM) }
    ensures { JoinAnswered (net_of first.now.net) (net_of second.now.net) (unsigned 4 places.now) row_starts.old columns.old values.old result row_starts.new columns.new values.new }
{
    let mut first_starts = [0u32; MAX_STARTS];
    let mut first_columns = [0u32; CELLS];
    let mut first_values = [0i32; CELLS];
    let mut second_starts = [0u32; MAX_STARTS];
    let mut second_columns = [0u32; CELLS];
    let mut second_values = [0i32; CELLS];
    let mut place_list = [0u32; MAX_STARTS];
    let mut joined_columns = [0u32; ROOM];
    let mut joined_values = [0i32; ROOM];
    let one = first.decode(&mut first_starts, &mut first_columns, &mut first_values);
    let two = second.decode(&mut second_starts, &mut second_columns, &mut second_values);
    let pieces = Pieces {
        first: one,
        second: two,
        places: decode(places, &mut place_list),
    };
    join_of(
        &pieces,
        &mut joined_columns,
        &mut joined_values,
        row_starts,
        columns,
        values,
    )
}

pub fn join_in(
    first: &NetBytes,
    second: &NetBytes,
    places: &[u8],
    row_starts: &mut [u8],
    columns: &mut [u8],
    values: &mut [u8],
) -> u64
    ensures { JoinAnswered (net_of first.now) (net_of second.now) (unsigned 4 places.now) row_starts.old columns.old values.old result row_starts.new columns.new values.new }
{
    if are_few(first.columns, first.values) & are_few(second.columns, second.values) {
        join_within::<FEW_CELLS, FEW_JOINED>(
            &SizedNet { net: *first },
            &SizedNet { net: *second },
            places,
            row_starts,
            columns,
            values,
        )
    } else {
        join_within::<MAX_CELLS, MAX_CELLS>(
            &SizedNet { net: *first },
            &SizedNet { net: *second },
            places,
            row_starts,
            columns,
            values,
        )
    }
}
