// A whole text: its rows and entries, or its refusal.

ghost use Rattle.std.specs.Prelude.{◌≡◌, ◌&&◌, ◌≤◌, eqb, leb, drop};
ghost use Rattle.matrix.specs.Limits.{max_rows, max_entries};
ghost use Rattle.market.specs.Parse.{size_line, parse};
ghost use Rattle.compress.specs.Code.Entries.{listed};
ghost use Rattle.reader.specs.Code.Scanned.{parsed};

use crate::entries::read_entries;
use crate::opening::{has_header, skip_comments};
use crate::size::Size;
use base::{Kind, Refusal};
use compress::entries::EntryList;
use matrix::limits::{MAX_ENTRIES, MAX_ROWS, MAX_TEXT};
use scan::lines::read_line;

// The limits of a size, as wide as the text's numbers.
const MOST_ROWS: u64 = MAX_ROWS as u64;

const MOST_ENTRIES: u64 = MAX_ENTRIES as u64;

// Whether rows, columns and entry count are a size within limits.
fn is_size(rows: u64, columns: u64, count: u64) -> bool
    ensures { result ≡ eqb rows columns && leb 1 rows && leb rows max_rows && leb count max_entries }
{
    rows == columns && 1 <= rows && rows <= MOST_ROWS && count <= MOST_ENTRIES
}

// The size line, at a position and with its number, and all after it.
fn parse_size(s: &[u8], pos: usize, line: u32, list: &mut EntryList) -> Result<usize, Refusal>
    requires { line ≤ 1048577 }
    ensures { size_line line (drop pos s.now) ≡ parsed result (listed list.new) }
{
    let form = Refusal {
        kind: Kind::BadForm,
        place: line,
    };
    let Some(size) = read_line(s, pos) else {
        return Err(form);
    };
    if size.value < 0 {
        return Err(form);
    }
    let m = size.value as u64;
    if !is_size(size.row, size.column, m) {
        return Err(Refusal {
            kind: Kind::BadSize,
            place: line,
        });
    }
    let told = Size {
        rows: size.row as usize,
        entries: m as usize,
        line: line + 1,
    };
    read_entries(s, size.next, &told, list)
}

// The text: its count of rows, and its entries in the list; or the refusal.
pub(crate) fn parse_text(s: &[u8], list: &mut EntryList) -> Result<usize, Refusal>
    ensures { parse s.now ≡ parsed result (listed list.new) }
{
    if MAX_TEXT < s.len() {
        return Err(Refusal {
            kind: Kind::BadForm,
            place: 0,
        });
    }
    if !has_header(s) {
        return Err(Refusal {
            kind: Kind::BadHeader,
            place: 1,
        });
    }
    let start = skip_comments(s, 51, 2);
    parse_size(s, start.pos, start.line, list)
}
