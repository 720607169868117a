// Numbers at their places: in a prepared list, and in the bytes of the sums.
ghost use Rattle.std.specs.Prelude.{◌≡◌, ◌+◌, ◌*◌, ◌^◌, ◌≤◌, ◌<◌, length};
ghost use Rattle.words.specs.Code.Places.{four_at};
ghost use Rattle.picking.specs.Code.Reads.{loaded_at, stored_at, update_of, update_at};

use prepared::{HEAD, UPDATE};
use words::word::Word;

// An update: what it adds, the position of its sum, and of its row.
#[derive(Clone, Copy)]
pub struct Entry {
    pub amount: i64,
    pub target: usize,
    pub row: usize,
}

// The number of the four bytes from a place on.
pub fn word_at(list: &[u8], at: usize) -> u32
    requires { at + 4 ≤ length list.now }
    ensures { result ≡ four_at list.now at }
{
    u32::read(list, at)
}

// .. as an index.
pub fn number_at(list: &[u8], at: usize) -> usize
    requires { at + 4 ≤ length list.now }
    ensures { (result ≡ four_at list.now at) × (result < 2 ^ 32) }
{
    word_at(list, at) as usize
}

// Sum t, loaded: 0 if there is none.
pub fn load_at(sums: &[u8], rows: usize, t: usize) -> i64
    requires { rows * 8 ≤ length sums.now }
    ensures { result ≡ loaded_at sums.now rows t }
{
    if rows <= t {
        return 0;
    }
    i64::read(sums, t * 8)
}

// Sum t, stored: nowhere if there is none.
pub fn store_at(sums: &mut [u8], rows: usize, t: usize, z: i64)
    requires { rows * 8 ≤ length sums.old }
    ensures { sums.new ≡ stored_at sums.old rows t z }
{
    if t < rows {
        z.write(sums, t * 8);
    }
}

// Update number k, or one that does nothing.
pub fn update_at(list: &[u8], count: usize, k: usize) -> Entry
    requires { 144 + count * 16 ≤ length list.now }
    ensures { update_of result ≡ update_at list.now count k }
{
    if count <= k {
        return Entry {
            amount: 0,
            target: 0,
            row: 0,
        };
    }
    let at = HEAD + k * UPDATE;
    let amount = i64::read(list, at);
    let target = number_at(list, at + 8);
    let row = number_at(list, at + 12);
    Entry {
        amount,
        target,
        row,
    }
}
