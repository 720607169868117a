// The entry lines of a text, into a list. No place may be given twice.

ghost use Rattle.std.specs.Prelude.{◌≡◌, []};
ghost use Rattle.compress.specs.Code.Entries.{listed};
ghost use Rattle.reader.specs.Code.Scanned.{parsed};
ghost use Rattle.reader.specs.Code.Entries.{Held, remaining, Ended};

use crate::entry::read_entry;
use crate::marks::{bit_of, mark, mark_all};
use crate::size::Size;
use base::{Kind, Refusal};
use compress::entries::EntryList;
use matrix::limits::MAX_ROWS;

// Places are told apart by column, then row.
const STRIDE: u32 = MAX_ROWS as u32;

// The entry lines from a position on whose places rise, by column, then by row: no place is given twice. The first line
// that is no entry, or does not rise, ends them: the answer is its position.
fn read_sorted(s: &[u8], at: usize, size: &Size, list: &mut EntryList) -> usize
    ensures held { Held size.now.entries (listed list.new) }
    ensures same { remaining s.now size.now (listed list.new) result ≡ remaining s.now size.now [] at }
{
    let mut low: u32 = 0;
    let mut p = at;
    list.clear();
    for _i in 0..size.entries {
        let Ok(e) = read_entry(s, p, size.rows) else {
            return p;
        };
        let key = e.column * STRIDE + e.row;
        if key < low {
            return p;
        }
        list.push(e.row, e.column, e.value);
        low = key + 1;
        p = e.next;
    }
    p
}

// What all lines make, if nothing follows them.
fn ended(s: &[u8], pos: usize, size: &Size) -> Result<usize, Refusal>
    ensures { Ended s.now pos size.now result }
{
    if pos < s.len() {
        return Err(Refusal {
            kind: Kind::BadForm,
            place: size.line + (size.entries as u32),
        });
    }
    Ok(size.rows)
}

// The lines from a position on, after those in the list, in any order: each place is marked.
fn read_marked(s: &[u8], from: usize, size: &Size, list: &mut EntryList) -> Result<usize, Refusal>
    requires { Held size.now.entries (listed list.old) }
    ensures { remaining s.now size.now (listed list.old) from ≡ parsed result (listed list.new) }
{
    let mut marks = [0u64; 131104];
    let mut p = from;
    mark_all(list, &mut marks);
    for i in list.count..size.entries {
        let place = size.line + (i as u32);
        let e = match read_entry(s, p, size.rows) {
            Ok(e) => e,
            Err(kind) => return Err(Refusal { kind, place }),
        };
        if mark(&mut marks, bit_of(e.row, e.column)) {
            return Err(Refusal {
                kind: Kind::BadEntry,
                place,
            });
        }
        list.push(e.row, e.column, e.value);
        p = e.next;
    }
    ended(s, p, size)
}

// The entry lines from a position on; nothing may follow them. The answer is the count of rows.
pub(crate) fn read_entries(
    s: &[u8],
    at: usize,
    size: &Size,
    list: &mut EntryList,
) -> Result<usize, Refusal>
    ensures { remaining s.now size.now [] at ≡ parsed result (listed list.new) }
{
    let reached = read_sorted(s, at, size, list);
    if list.count < size.entries {
        return read_marked(s, reached, size, list);
    }
    ended(s, reached, size)
}
