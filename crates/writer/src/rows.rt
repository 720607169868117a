// A matrix as text: measured first, then put. Column j on and below the diagonal is row j from the diagonal on.

ghost use Rattle.std.specs.Prelude.{◌≡◌, true, ◌+◌, ◌≤◌, ◌<◌, length};
ghost use Rattle.matrix.specs.Matrix.{is_matrix};
ghost use Rattle.matrix.specs.Held.{held};
ghost use Rattle.market.specs.Text.{lower};
ghost use Rattle.writer.specs.Code.Puts.{Put, from_diagonal, if_lower, lines_of, Row, Tallied};
ghost use Rattle.matrix.specs.Limits.{max_rows};

use crate::puts::{line_width, put_line};
use matrix::lists::Matrix;

// How many entries, and how many bytes their lines take.
#[derive(Clone, Copy)]
pub(crate) struct Tally {
    pub entries: usize,
    pub bytes: usize,
}

// What the entry of row j and column c, with value v, takes if it is written.
fn tally_entry(j: u32, c: u32, v: i32) -> Tally
    requires { (j < max_rows) × (c < max_rows) }
    ensures { Tallied (if_lower j c v) result.entries result.bytes }
{
    if c < j {
        return Tally {
            entries: 0,
            bytes: 0,
        };
    }
    Tally {
        entries: 1,
        bytes: line_width(c + 1, j + 1, v),
    }
}

// What row j takes from the diagonal on.
fn tally_row(j: u32, columns: &[u32], values: &[i32]) -> Tally
    requires { Row j columns.now values.now }
    ensures { Tallied (from_diagonal j columns.now values.now) result.entries result.bytes }
{
    let mut entries: usize = 0;
    let mut bytes: usize = 0;
    for k in 0..columns.len() {
        let t = tally_entry(j, columns[k], values[k]);
        entries += t.entries;
        bytes += t.bytes;
    }
    Tally { entries, bytes }
}

// What all entries on and below the diagonal take.
pub(crate) fn tally_rows(m: &Matrix) -> Tally
    requires { is_matrix (held m.now) ≡ true }
    ensures { Tallied (lower (held m.now)) result.entries result.bytes }
{
    let mut entries: usize = 0;
    let mut bytes: usize = 0;
    for j in 0..m.n {
        let t = tally_row(j as u32, m.columns_of(j), m.values_of(j));
        entries += t.entries;
        bytes += t.bytes;
    }
    Tally { entries, bytes }
}

// The line of the entry of row j and column c, if it is written, and the place after it.
fn put_entry(text: &mut [u8], at: usize, j: u32, c: u32, v: i32) -> usize
    requires { (j < max_rows) × (c < max_rows) × (at + length (lines_of (if_lower j c v)) ≤ length text.old) }
    ensures { Put (lines_of (if_lower j c v)) at result text.old text.new }
{
    if c < j {
        return at;
    }
    put_line(text, at, c + 1, j + 1, v)
}

// The lines of row j from the diagonal on, and the place after them.
fn put_row(text: &mut [u8], at: usize, j: u32, columns: &[u32], values: &[i32]) -> usize
    requires { Row j columns.now values.now × (at + length (lines_of (from_diagonal j columns.now values.now)) ≤ length text.old) }
    ensures { Put (lines_of (from_diagonal j columns.now values.now)) at result text.old text.new }
{
    let mut p = at;
    for k in 0..columns.len() {
        p = put_entry(text, p, j, columns[k], values[k]);
    }
    p
}

// The lines of all entries on and below the diagonal, and the place after them.
pub(crate) fn put_rows(text: &mut [u8], at: usize, m: &Matrix) -> usize
    requires { (is_matrix (held m.now) ≡ true) × (at + length (lines_of (lower (held m.now))) ≤ length text.old) }
    ensures { Put (lines_of (lower (held m.now))) at result text.old text.new }
{
    let mut p = at;
    for j in 0..m.n {
        p = put_row(text, p, j as u32, m.columns_of(j), m.values_of(j));
    }
    p
}
