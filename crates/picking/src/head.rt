// The head of a prepared list, and what it says of counts.
ghost use Rattle.std.specs.Prelude.{◌≡◌, true, ◌≤◌};
ghost use Rattle.plan.specs.Sound.{max_workers};
ghost use Rattle.prepared.specs.Format.{is_prepared};
ghost use Rattle.prepared.specs.Tables.{counts_fine_by, all_made_by};
ghost use Rattle.picking.specs.Code.Picks.{tables_in};
ghost use Rattle.picking.specs.Code.Reads.{Head};

use crate::places::{number_at, word_at};
use plan::MAX_WORKERS;
use prepared::{HEAD, MARK, MOST, ROW, UPDATE};

// What a head says: the rows, the workers of the plan, the updates.
#[derive(Clone, Copy)]
pub struct Sizes {
    pub rows: usize,
    pub crew: usize,
    pub count: usize,
}

// 26: whether the bytes are a prepared list.
pub fn is_prepared(list: &[u8]) -> bool
    ensures { result ≡ is_prepared list.now }
{
    if list.len() < HEAD || word_at(list, 0) != MARK || MAX_WORKERS < number_at(list, 8) {
        return false;
    }
    let count = number_at(list, 12);
    let rows = number_at(list, 4);
    HEAD + count * UPDATE + rows * ROW <= list.len()
}

// What its head says.
pub fn sizes_of(list: &[u8]) -> Sizes
    requires { is_prepared list.now ≡ true }
    ensures { Head list.now result.rows result.crew result.count }
{
    let rows = number_at(list, 4);
    let crew = number_at(list, 8);
    let count = number_at(list, 12);
    Sizes { rows, crew, count }
}

// No worker has made more than its accesses.
pub fn is_fine(list: &[u8], made: &[u32; MAX_WORKERS]) -> bool
    requires { is_prepared list.now ≡ true }
    ensures { result ≡ counts_fine_by (tables_in list.now) made.now max_workers }
{
    for (w, done) in made.iter().enumerate() {
        if word_at(list, MOST + w * 4) < *done {
            return false;
        }
    }
    true
}

// Every worker of the plan has made all its accesses.
pub fn is_over(list: &[u8], crew: usize, made: &[u32; MAX_WORKERS]) -> bool
    requires { (is_prepared list.now ≡ true) × (crew ≤ max_workers) }
    ensures { result ≡ all_made_by (tables_in list.now) made.now crew }
{
    for w in 0..crew {
        if made[w] < word_at(list, MOST + w * 4) {
            return false;
        }
    }
    true
}
