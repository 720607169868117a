// Forces kept current while joints creep.
// Each list and its count comes by itself, as the C interface has it.
ghost use Rattle.lent.specs.Bytes.{matrix_in};
ghost use Rattle.upkeep.specs.Upkeep.{new_displacement, new_value};
ghost use Rattle.site.specs.Lent.{MovementAnswered, EntryAnswered};

// A new displacement for one row.
#[unsafe(no_mangle)]
pub extern "C" fn mzk_set_movement(
    n: u32,
    row_starts: &[u8],
    columns: &[u8],
    values: &[u8],
    movements: &mut [u8],
    forces: &mut [u8],
    row: u32,
    value: i32,
) -> u64
    ensures { MovementAnswered (matrix_in n row_starts.now columns.now values.now) (new_displacement row value) movements.old forces.old result movements.new forces.new }
{
    mazhoketh::changes::mzk_set_movement(
        n, row_starts, columns, values, movements, forces, row, value,
    )
}

// A new value for a stored entry and its mirror.
#[unsafe(no_mangle)]
pub extern "C" fn mzk_set_entry(
    n: u32,
    row_starts: &[u8],
    columns: &[u8],
    values: &mut [u8],
    movements: &[u8],
    forces: &mut [u8],
    row: u32,
    column: u32,
    value: i32,
) -> u64
    ensures { EntryAnswered (matrix_in n row_starts.now columns.now values.old) (new_value row column value) values.old movements.now forces.old result values.new forces.new }
{
    mazhoketh::changes::mzk_set_entry(
        n, row_starts, columns, values, movements, forces, row, column, value,
    )
}
