// set_entry: a new value for a stored entry and its mirror.
ghost use Rattle.std.specs.Prelude.{◌≡◌, ◌/◌, ◌≤◌, length, take};
ghost use Rattle.matrix.specs.Matrix.{matrix_of};
ghost use Rattle.matrix.specs.Code.Room.{max_starts, max_cells, Reaches};
ghost use Rattle.words.specs.LittleEndian.{signed};
ghost use Rattle.lent.specs.Bytes.{matrix_in};
ghost use Rattle.upkeep.specs.Upkeep.{new_value};
ghost use Rattle.site.specs.Lent.{EntryAnswered};

use lent::few::{FEW_CELLS, are_few};
use lent::lists::decode;
use lent::word::word_of;
use matrix::limits::{MAX_CELLS, MAX_STARTS};
use upkeep::set_entry;
use words::lists::{load, store};

// A stored entry and its new value.
#[derive(Clone, Copy)]
pub struct Entry {
    pub row: u32,
    pub column: u32,
    pub value: i32,
}

// The bytes of a matrix of n rows but for its values. (Those are written, so they come beside it.)
#[derive(Clone, Copy)]
pub struct PatternBytes<'a> {
    pub n: u32,
    pub row_starts: &'a [u8],
    pub columns: &'a [u8],
}

// What a new value leaves as it is: the matrix but for its values, and the displacements, which the bytes of the
// movements stand for.
#[derive(Clone, Copy)]
struct Fixed<'a> {
    n: usize,
    starts: &'a [u32],
    columns: &'a [u32],
    displacements: &'a [i32],
    movements: &'a [u8],
    ghost moved: { displacements.now ≡ take max_starts (signed 4 movements.now) },
}

// All lists are decoded. Values and forces are changed in their arrays; then those of the matrix are stored.
fn set_entry_of(
    fixed: &Fixed,
    list: &mut [i32],
    sums: &mut [i64],
    to: Entry,
    values: &mut [u8],
    forces: &mut [u8],
) -> u64
    requires { (sums.old ≡ take max_starts (signed 8 forces.old)) × (length list.old ≤ length values.old / 4) }
    ensures { EntryAnswered (matrix_of fixed.now.n fixed.now.starts.now fixed.now.columns.now list.old) (new_value to.row to.column to.value) values.old fixed.now.movements.now forces.old result values.new forces.new }
{
    let answer = set_entry(
        fixed.n,
        fixed.starts,
        fixed.columns,
        list,
        fixed.displacements,
        sums,
        to.row,
        to.column,
        to.value,
    );
    let Ok(_) = answer else {
        return word_of(answer);
    };
    let entries = fixed.starts[fixed.n] as usize;
    store(&list[..entries], values);
    store(sums, forces);
    word_of(answer)
}

// With arrays for so many columns and values, in a frame of their own.
#[inline(never)]
fn set_entry_with<const CELLS: usize>(
    bytes: &PatternBytes,
    values: &mut [u8],
    movements: &[u8],
    forces: &mut [u8],
    to: Entry,
) -> u64
    requires { (CELLS ≤ max_cells) × Reaches CELLS (length bytes.now.columns.now / 4) × Reaches CELLS (length values.old / 4) }
    ensures { EntryAnswered (matrix_in bytes.now.n bytes.now.row_starts.now bytes.now.columns.now values.old) (new_value to.row to.column to.value) values.old movements.now forces.old result values.new forces.new }
{
    let mut starts = [0u32; MAX_STARTS];
    let mut displacements = [0i32; MAX_STARTS];
    let mut sums = [0i64; MAX_STARTS];
    let mut columns = [0u32; CELLS];
    let mut list = [0i32; CELLS];
    let entries = load(values, &mut list);
    let kept = load(forces, &mut sums);
    let fixed = Fixed {
        n: bytes.n as usize,
        starts: decode(bytes.row_starts, &mut starts),
        columns: decode(bytes.columns, &mut columns),
        displacements: decode(movements, &mut displacements),
        movements,
    };
    set_entry_of(
        &fixed,
        &mut list[..entries],
        &mut sums[..kept],
        to,
        values,
        forces,
    )
}

pub fn set_entry_in(
    bytes: &PatternBytes,
    values: &mut [u8],
    movements: &[u8],
    forces: &mut [u8],
    to: Entry,
) -> u64
    ensures { EntryAnswered (matrix_in bytes.now.n bytes.now.row_starts.now bytes.now.columns.now values.old) (new_value to.row to.column to.value) values.old movements.now forces.old result values.new forces.new }
{
    if are_few(bytes.columns, values) {
        set_entry_with::<FEW_CELLS>(bytes, values, movements, forces, to)
    } else {
        set_entry_with::<MAX_CELLS>(bytes, values, movements, forces, to)
    }
}
