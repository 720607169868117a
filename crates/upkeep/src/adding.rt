// What a change adds to the forces.
ghost use Rattle.std.specs.Prelude.{◌≡◌, ◌*◌, ◌≤◌, nat_abs, ◌-ℤ◌, ◌*ℤ◌};
ghost use Rattle.matrix.specs.Limits.{max_value};
ghost use Rattle.upkeep.specs.Code.Sums.{Addable, Added, BothIn, BothAdded};

// How far it is from one number to another.
pub(crate) fn difference(to: i32, from: i32) -> i64
    ensures { result ≡ to -ℤ from }
{
    to as i64 - from as i64
}

// A difference of values times a displacement.
pub(crate) fn times(step: i64, displacement: i32) -> i64
    requires { nat_abs step ≤ 2 * max_value }
    ensures { result ≡ step *ℤ displacement }
{
    step * displacement as i64
}

// A row's values times a difference of displacements, added to the forces of their columns.
pub(crate) fn add_row(columns: &[u32], values: &[i32], step: i64, forces: &mut [i64])
    requires { Addable columns.now values.now step forces.old }
    ensures { Added columns.now values.now step forces.old forces.new }
{
    for (k, column) in columns.iter().enumerate() {
        forces[*column as usize] += values[k] as i64 * step;
    }
}

// What an entry's new value adds to the forces of its two rows; on the diagonal there is one.
pub(crate) fn add_both(forces: &mut [i64], i: usize, first: i64, j: usize, second: i64)
    requires { BothIn forces.old i j first second }
    ensures { BothAdded i j first second forces.old forces.new }
{
    forces[i] += first;
    if i != j {
        forces[j] += second;
    }
}
