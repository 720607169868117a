// Values, and lines of three fields, at a position of a text.

ghost use Rattle.std.specs.Prelude.{◌≡◌, drop};
ghost use Rattle.market.specs.Fields.{value, value_field, fields};
ghost use Rattle.scan.specs.Code.Positions.{value_at, fields_at};

use crate::classes::{LINE_END, SIGN, SPACE, class_at, class_of};
use crate::numbers::{read_field, read_number, skip_spaces};

// The value at a position: a number that may carry a sign, and no `-0`; and the position after it.
fn read_value(s: &[u8], at: usize) -> Option<(i64, usize)>
    ensures { result ≡ value_at at (value (drop at s.now)) }
{
    if s.len() <= at {
        return None;
    }
    let b = s[at];
    if class_of(b) == SIGN {
        let (v, p) = read_number(s, at + 1)?;
        if v == 0 {
            return None;
        }
        let m = v as i64;
        return Some((0 - m, p));
    }
    let (w, q) = read_number(s, at)?;
    Some((w as i64, q))
}

// One or more spaces and a value at a position, and the position after it. One function for this and `read_field` would
// take what is read as a closure, with what it promises, which is no plainer than these two lines.
fn read_value_field(s: &[u8], at: usize) -> Option<(i64, usize)>
    ensures { result ≡ value_at at (value_field (drop at s.now)) }
{
    if class_at(s, at) != SPACE {
        return None;
    }
    read_value(s, skip_spaces(s, at + 1))
}

// A line's three fields and the position of the next line.
#[derive(Clone, Copy)]
pub struct Line {
    pub row: u64,
    pub column: u64,
    pub value: i64,
    pub next: usize,
}

// The line at a position, unless it breaks the form.
pub fn read_line(s: &[u8], at: usize) -> Option<Line>
    ensures { result ≡ fields_at at (fields (drop at s.now)) }
{
    let (row, p) = read_number(s, at)?;
    let (column, q) = read_field(s, p)?;
    let (value, e) = read_value_field(s, q)?;
    if s.len() <= e {
        return None;
    }
    let z = s[e];
    if class_of(z) != LINE_END {
        return None;
    }
    Some(Line {
        row,
        column,
        value,
        next: e + 1,
    })
}
