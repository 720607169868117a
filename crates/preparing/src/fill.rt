// The parts of a prepared list, each written from a place on.
ghost use Rattle.std.specs.Prelude.{◌≡◌, map, ℕ, ◌+◌, ◌*◌, ◌^◌, ◌≤◌, ◌<◌, length, get_or};
ghost use Rattle.std.proofs.lemmas.List.Edits.{sets};
ghost use Rattle.base.specs.Lists.{concat};
ghost use Rattle.matrix.specs.Limits.{max_rows};
ghost use Rattle.plan.specs.Sound.{max_groups};
ghost use Rattle.tables.specs.Code.Laid.{max_updates};
ghost use Rattle.words.specs.LittleEndian.{unsigned_bytes};
ghost use Rattle.prepared.specs.Format.{bytes_of_update};
ghost use Rattle.preparing.specs.Code.Filled.{gate_numbers, update_numbers, Legible};

use crate::table::GATES;
use matrix::limits::MAX_ROWS;
use plan::MAX_WORKERS;
use prepared::UPDATE;
use steps::updates::{amount_of, target_of};
use tables::{Entries, Tables};
use words::word::Word;

// One update: what it adds, the position of its sum, and of its row.
pub fn store_update(out: &mut [u8], at: usize, amount: i64, target: usize, row: usize)
    requires { (at + 16 ≤ length out.old) × (target < 2 ^ 32) × (row < 2 ^ 32) }
    ensures { out.new ≡ sets out.old at (bytes_of_update (record { row = row; target = target; amount = amount })) }
{
    amount.write(out, at);
    (target as u32).write(out, at + 8);
    (row as u32).write(out, at + 12);
}

// Numbers of four bytes.
pub fn store_numbers(out: &mut [u8], from: usize, numbers: &[u32])
    requires { from + length numbers.now * 4 ≤ length out.old }
    ensures { out.new ≡ sets out.old from (unsigned_bytes 4 numbers.now) }
{
    for (k, number) in numbers.iter().enumerate() {
        number.write(out, from + k * 4);
    }
}

// The gates of n rows, sixteen numbers each, by the leaf of each.
pub fn store_gates(
    out: &mut [u8],
    from: usize,
    n: usize,
    leaves: &[u16; MAX_ROWS],
    table: &[u32; GATES],
)
    requires { (from + n * 64 ≤ length out.old) × (n ≤ max_rows) × ((q : ℕ) → get_or leaves.now q 0 < max_groups) }
    ensures { out.new ≡ sets out.old from (unsigned_bytes 4 (gate_numbers n leaves.now table.now)) }
{
    for k in 0..n * MAX_WORKERS {
        let i = usize::from(leaves[k / MAX_WORKERS]);
        let gate = table[i * MAX_WORKERS + k % MAX_WORKERS];
        gate.write(out, from + k * 4);
    }
}

// The updates of all workers, by the tables of a job. The tables have room for those of every job, as memory is fixed:
// `count` says how many there are.
pub fn store_updates(
    out: &mut [u8],
    from: usize,
    count: usize,
    tables: &Tables,
    entries: &Entries,
    displaced: &[i32; MAX_ROWS],
)
    requires { (from + count * 16 ≤ length out.old) × (count ≤ max_updates)
        × ((n : ℕ) × Legible n count tables.now.row.now tables.now.begins.now entries.now.parts.now entries.now.at.now entries.now.beside.now) }
    ensures { out.new ≡ sets out.old from (concat (map bytes_of_update
        (update_numbers count tables.now.row.now tables.now.begins.now
        entries.now.parts.now displaced.now entries.now.at.now entries.now.beside.now))) }
{
    for k in 0..count {
        let p = usize::from(tables.row[k]);
        let c = k - tables.begins[p] as usize;
        let target = target_of(entries, p, c);
        let amount = amount_of(entries, displaced, p, c);
        store_update(out, from + k * UPDATE, amount, target, p);
    }
}
