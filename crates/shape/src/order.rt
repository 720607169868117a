// The order of a plan has each row once.
ghost use Rattle.std.specs.Prelude.{◌≡◌, true, false, [], ℕ, ◌≤◌, ◌<◌, ◌↔◌, IsTrue, length, get_or, take};
ghost use Rattle.plan.specs.Sound.{each_once};
ghost use Rattle.shape.specs.Code.Shape.{Seen};
ghost use Rattle.matrix.specs.Limits.{max_rows};

use matrix::limits::MAX_ROWS;

// The rows of a list get a mark; what is no row gets none.
fn mark_rows(rows: &[u32], n: usize, marks: &mut [bool; MAX_ROWS])
    requires { (n ≤ max_rows) × Seen n [] marks.old }
    ensures { Seen n rows.now marks.new }
{
    for v in rows {
        if (*v as usize) < n {
            marks[*v as usize] = true;
        }
    }
}

// Every row has a mark.
fn all_marked(marks: &[bool]) -> bool
    ensures { IsTrue result ↔ ((k : ℕ) → k < length marks.now → get_or marks.now k false ≡ true) }
{
    marks.iter().all(|mark| *mark)
}

// The first n of the order are each row once.
pub fn each_once(order: &[u32], n: usize) -> bool
    requires { (n ≤ length order.now) × (n ≤ max_rows) }
    ensures { result ≡ each_once n (take n order.now) }
{
    let mut marks = [false; MAX_ROWS];
    mark_rows(&order[..n], n, &mut marks);
    all_marked(&marks[..n])
}
