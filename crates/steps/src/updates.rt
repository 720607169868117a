// The updates of a row, found in the upper triangle of the matrix in plan order.
ghost use Rattle.std.specs.Prelude.{◌≡◌, ℕ, ◌≤◌, ◌<◌, ◌*ℤ◌, length};
ghost use Rattle.matrix.specs.Limits.{max_rows};
ghost use Rattle.tables.specs.Code.Laid.{max_updates};
ghost use Rattle.steps.specs.Code.Updates.{by_turns, entry_place, target_in, amount_in, Readable};

use matrix::limits::MAX_ROWS;
use tables::Entries;

// a at even numbers k, b at odd ones.
fn by_turns(k: usize, a: usize, b: usize) -> usize
    ensures { result ≡ by_turns k a b }
{
    if k % 2 == 0 { a } else { b }
}

// An entry times a displacement.
fn product(entry: i32, displacement: i32) -> i64
    ensures { result ≡ entry *ℤ displacement }
{
    entry as i64 * displacement as i64
}

// Where update number k of the row at position p has its entry, beside the other row's position.
fn entry_place(parts: &[u32; MAX_ROWS], p: usize, k: usize) -> usize
    requires { (p < max_rows) × (entry_place parts.now p k < max_updates) }
    ensures { result ≡ entry_place parts.now p k }
{
    parts[p] as usize + (k + 1) / 2
}

// The position of its sum: the other row's, then the row's own.
pub fn target_of(entries: &Entries, p: usize, k: usize) -> usize
    requires { (p < max_rows) × (entry_place entries.now.parts.now p k < length entries.now.at.now) × (length entries.now.at.now ≤ max_updates) }
    ensures { result ≡ target_in entries.now.parts.now entries.now.at.now p k }
{
    by_turns(k, entries.at[entry_place(entries.parts, p, k)] as usize, p)
}

// What it adds: the entry times the displacement of the row whose sum it is not.
pub fn amount_of(entries: &Entries, displaced: &[i32; MAX_ROWS], p: usize, k: usize) -> i64
    requires { (n : ℕ) × Readable n entries.now.parts.now entries.now.at.now entries.now.beside.now p k }
    ensures { result ≡ amount_in entries.now.parts.now displaced.now entries.now.at.now entries.now.beside.now p k }
{
    let place = entry_place(entries.parts, p, k);
    let row = by_turns(k, p, entries.at[place] as usize);
    product(entries.beside[place], displaced[row])
}
