// Forces kept current while joints creep (document 02, Q-10): a new displacement, or a new value for an entry and its
// mirror, is written, and the forces are brought up to date.
#![tactic(auto)]

mod adding;
mod current;
mod stored;

ghost use Rattle.std.specs.Prelude.{◌≡◌};
ghost use Rattle.base.specs.Verdicts.{reply_of};
ghost use Rattle.upkeep.specs.Upkeep.{kept_in, new_displacement, new_value, change_reply, after_change};

use adding::{add_both, add_row, difference, times};
use base::{Kind, Refusal};
use current::check_current;
use matrix::limits::{MAX_DISPLACEMENT, MAX_VALUE};
use matrix::lists::Matrix;
use multiply::limits::is_within;
use stored::places;

// A new displacement for one row.
pub fn set_displacement(
    m: &Matrix,
    displacements: &mut [i32],
    forces: &mut [i64],
    row: u32,
    to: i32,
) -> Result<u32, Refusal>
    ensures reply { reply_of result ≡ change_reply (kept_in m.now.n m.now.starts.now m.now.columns.now m.now.values.now displacements.old forces.old) (new_displacement row to) }
    ensures displacements_left { displacements.new ≡ (after_change (kept_in m.now.n m.now.starts.now m.now.columns.now m.now.values.now displacements.old forces.old) (new_displacement row to)).displacements }
    ensures forces_left { forces.new ≡ (after_change (kept_in m.now.n m.now.starts.now m.now.columns.now m.now.values.now displacements.old forces.old) (new_displacement row to)).forces }
{
    check_current(m, displacements, forces)?;
    let i = row as usize;
    if m.n <= i {
        return Err(Refusal {
            kind: Kind::NoEntry,
            place: 0,
        });
    }
    if !is_within(to, MAX_DISPLACEMENT) {
        return Err(Refusal {
            kind: Kind::BadChange,
            place: 0,
        });
    }
    let step = difference(to, displacements[i]);
    add_row(m.columns_of(i), m.values_of(i), step, forces);
    displacements[i] = to;
    Ok(0)
}

// A new value for a stored entry and its mirror. (README's table names this call. Its lists come one by one, since the
// values are written and a `Matrix` lends its own to be read: a type with the values to be written would be this
// call's alone, and be taken apart at once.)
pub fn set_entry(
    n: usize,
    starts: &[u32],
    columns: &[u32],
    values: &mut [i32],
    displacements: &[i32],
    forces: &mut [i64],
    row: u32,
    column: u32,
    to: i32,
) -> Result<u32, Refusal>
    ensures reply { reply_of result ≡ change_reply (kept_in n starts.now columns.now values.old displacements.now forces.old) (new_value row column to) }
    ensures values_left { values.new ≡ (after_change (kept_in n starts.now columns.now values.old displacements.now forces.old) (new_value row column to)).matrix.values }
    ensures forces_left { forces.new ≡ (after_change (kept_in n starts.now columns.now values.old displacements.now forces.old) (new_value row column to)).forces }
{
    let m = Matrix {
        n,
        starts,
        columns,
        values: &*values,
    };
    check_current(&m, displacements, forces)?;
    let Some((p, q)) = places(&m, row, column) else {
        return Err(Refusal {
            kind: Kind::NoEntry,
            place: 0,
        });
    };
    if !is_within(to, MAX_VALUE) {
        return Err(Refusal {
            kind: Kind::BadChange,
            place: 0,
        });
    }
    let i = row as usize;
    let j = column as usize;
    let step = difference(to, values[p]);
    let first = times(step, displacements[j]);
    let second = times(step, displacements[i]);
    add_both(forces, i, first, j, second);
    values[p] = to;
    values[q] = to;
    Ok(0)
}
