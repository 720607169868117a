// One entry line of a text.

ghost use Rattle.std.specs.Prelude.{◌≡◌, ◌≤◌};
ghost use Rattle.matrix.specs.Limits.{max_rows};
ghost use Rattle.market.specs.Parse.{is_entry};
ghost use Rattle.reader.specs.Code.Entries.{EntryAt};

use base::Kind;
use market::in_limits;
use scan::lines::read_line;

// Whether row, column and value may stand in a matrix of n rows.
fn is_entry(n: usize, row: u64, column: u64, v: i64) -> bool
    requires { n ≤ max_rows }
    ensures { result ≡ is_entry n row column v }
{
    1 <= column && column <= row && row <= n as u64 && in_limits(v)
}

// An entry line's place, counted from 0, its value and the position of the next line.
#[derive(Clone, Copy)]
pub(crate) struct Entry {
    pub row: u32,
    pub column: u32,
    pub value: i32,
    pub next: usize,
}

// The entry line at a position, for a matrix of n rows; or why it is refused.
pub(crate) fn read_entry(s: &[u8], at: usize, n: usize) -> Result<Entry, Kind>
    requires { n ≤ max_rows }
    ensures { EntryAt s.now at n result }
{
    let Some(line) = read_line(s, at) else {
        return Err(Kind::BadForm);
    };
    if !is_entry(n, line.row, line.column, line.value) {
        return Err(Kind::BadEntry);
    }
    Ok(Entry {
        row: (line.row - 1) as u32,
        column: (line.column - 1) as u32,
        value: line.value as i32,
        next: line.next,
    })
}
