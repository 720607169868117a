// Entries of a matrix on and below the diagonal: a list that grows, and as they are lent.
ghost use Rattle.std.specs.Prelude.{◌≤◌, length};
ghost use Rattle.matrix.specs.Limits.{max_entries};
ghost use Rattle.compress.specs.Code.Arrays.{Arrays};
ghost use Rattle.compress.specs.Code.Rows.{OfRows};

use matrix::limits::MAX_ENTRIES;

// The entries of a matrix of n rows: the rows, columns and values beside each other, so that each list is read alone.
#[derive(Clone, Copy)]
pub struct Entries<'a> {
    pub n: usize,
    pub rows: &'a [u32],
    pub columns: &'a [u32],
    pub values: &'a [i32],
    ghost placed: { OfRows rows.now columns.now values.now (length rows.now) n },
}

// Entries in three arrays with room for as many as a matrix may have: the first `count` places of each.
#[derive(Drop)]
pub struct EntryList {
    pub rows: [u32; MAX_ENTRIES],
    pub columns: [u32; MAX_ENTRIES],
    pub values: [i32; MAX_ENTRIES],
    pub count: usize,
    ghost long: { Arrays rows columns values },
    ghost few: { count ≤ max_entries },
}

impl EntryList {
    ghost use Rattle.std.specs.Prelude.{◌≡◌, [], ◌∷◌, ◌++◌, ◌+◌, ◌<◌};
    ghost use Rattle.market.specs.Parse.{triplet};
    ghost use Rattle.compress.specs.Code.Rows.{InRows};
    ghost use Rattle.compress.specs.Code.Entries.{triplets, listed};

    // No entry.
    pub fn new() -> EntryList
        ensures { listed result ≡ [] }
    {
        EntryList {
            rows: [0; MAX_ENTRIES],
            columns: [0; MAX_ENTRIES],
            values: [0; MAX_ENTRIES],
            count: 0,
        }
    }

    // No entry is left.
    pub fn clear(&mut self)
        ensures { listed self.new ≡ [] }
    {
        self.count = 0;
    }

    // One entry more, after the others.
    pub fn push(&mut self, row: u32, column: u32, value: i32)
        requires { self.old.count < max_entries }
        ensures entries { listed self.new ≡ listed self.old ++ triplet row column value ∷ [] }
        ensures count { self.new.count ≡ self.old.count + 1 }
    {
        let k = self.count;
        self.rows[k] = row;
        self.columns[k] = column;
        self.values[k] = value;
        self.count = k + 1;
    }

    // The entries, as those of a matrix of n rows.
    pub fn lend(&self, n: usize) -> Entries<'_>
        requires { InRows n (listed self.now) }
        ensures rows { result.n ≡ n }
        ensures entries { triplets result ≡ listed self.now }
    {
        Entries {
            n,
            rows: &self.rows[..self.count],
            columns: &self.columns[..self.count],
            values: &self.values[..self.count],
        }
    }
}
