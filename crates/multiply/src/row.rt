// One row's force.
ghost use Rattle.std.specs.Prelude.{◌≡◌, ◌*ℤ◌, length};
ghost use Rattle.base.specs.Integers.{sumℤ};
ghost use Rattle.matrix.specs.Matrix.{lookup, displacement};
ghost use Rattle.multiply.specs.Code.Loaded.{RowOk};

// The values times the displacements of their columns, summed.
pub(crate) fn force(columns: &[u32], values: &[i32], displacements: &[i32]) -> i64
    requires { RowOk columns.now values.now displacements.now }
    ensures { result ≡ sumℤ (λ j. lookup j columns.now values.now *ℤ displacement displacements.now j) (length displacements.now) }
{
    let mut sum: i64 = 0;
    for (k, column) in columns.iter().enumerate() {
        sum += values[k] as i64 * displacements[*column as usize] as i64;
    }
    sum
}
