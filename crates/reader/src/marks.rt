// One bit for each place of the lower triangle: which places an earlier line has named.

ghost use Rattle.std.specs.Prelude.{◌≡◌, true, [], ◌≤◌, ◌<◌, length};
ghost use Rattle.base.specs.Lists.{all};
ghost use Rattle.compress.specs.Code.Entries.{listed};
ghost use Rattle.reader.specs.Code.Entries.{is_lower};
ghost use Rattle.reader.specs.Code.Marks.{is_marked, marked, bit_of, Marks};
ghost use Rattle.matrix.specs.Limits.{max_rows};

use compress::entries::EntryList;

// The bit of row r and column c.
pub(crate) fn bit_of(r: u32, c: u32) -> usize
    requires { (c ≤ r) × (r < max_rows) }
    ensures { (result ≡ bit_of r c) × (result < 8390656) }
{
    (r * (r + 1) / 2 + c) as usize
}

// Sets bit q, and says whether it was set.
pub(crate) fn mark(marks: &mut [u64; 131104], q: usize) -> bool
    requires { (q < 8390656) × (length marks.old ≡ 131104) }
    ensures { (result ≡ is_marked marks.old q) × (marks.new ≡ marked marks.old q) }
{
    let w = q / 64;
    let k = q % 64;
    let x = marks[w];
    marks[w] = x | (1u64 << k);
    (x >> k) % 2 == 1
}

// Sets the bits of the entries in a list.
pub(crate) fn mark_all(list: &EntryList, marks: &mut [u64; 131104])
    requires { (all is_lower (listed list.now) ≡ true) × Marks marks.old [] }
    ensures { Marks marks.new (listed list.now) }
{
    for k in 0..list.count {
        mark(marks, bit_of(list.rows[k], list.columns[k]));
    }
}
