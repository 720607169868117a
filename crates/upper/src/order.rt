// The position of each row, and the displacements in plan order.
ghost use Rattle.std.specs.Prelude.{◌≡◌, true, ℕ, ◌≤◌, ◌<◌, length, get_or, take};
ghost use Rattle.matrix.specs.Limits.{max_rows};
ghost use Rattle.plan.specs.Sound.{each_once};
ghost use Rattle.upper.specs.Code.Upper.{Positions, Displaced};

use matrix::limits::MAX_ROWS;

// The position of each row.
pub fn positions(order: &[u32], n: usize, position: &mut [u32; MAX_ROWS])
    requires { (n ≤ length order.now) × (n ≤ max_rows) × (each_once n (take n order.now) ≡ true) }
    ensures { Positions n (take n order.now) position.new }
{
    for p in 0..n {
        position[order[p] as usize] = p as u32;
    }
}

// The displacement of the row at each position.
pub fn displace(displacements: &[i32], order: &[u32], displaced: &mut [i32; MAX_ROWS])
    requires { (length displacements.now ≤ length order.now) × (length displacements.now ≤ max_rows)
        × ((p : ℕ) → p < length displacements.now → get_or order.now p 0 < length displacements.now) }
    ensures { Displaced (length displacements.now) displacements.now order.now displaced.new }
{
    for p in 0..displacements.len() {
        displaced[p] = displacements[order[p] as usize];
    }
}
