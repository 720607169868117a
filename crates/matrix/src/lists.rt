// A matrix by its lists: n rows, where each starts and the last ends, and the columns and values of their entries.
ghost use Rattle.std.specs.Prelude.{◌≡◌, ◌+◌, length, get_or};
ghost use Rattle.std.proofs.Math.Seq.{slice};
ghost use Rattle.matrix.specs.Code.Checks.{RowIn};

#[derive(Clone, Copy)]
pub struct Matrix<'a> {
    pub n: usize,
    pub starts: &'a [u32],
    pub columns: &'a [u32],
    pub values: &'a [i32],
}

impl<'a> Matrix<'a> {
    // Row i's columns.
    pub fn columns_of(&self, i: usize) -> &'a [u32]
        requires { RowIn self.now.starts.now (length self.now.columns.now) i }
        ensures { result.now ≡ slice (get_or self.now.starts.now i 0) (get_or self.now.starts.now (i + 1) 0) self.now.columns.now }
    {
        part_of(self.starts, self.columns, i)
    }

    // Row i's values.
    pub fn values_of(&self, i: usize) -> &'a [i32]
        requires { RowIn self.now.starts.now (length self.now.values.now) i }
        ensures { result.now ≡ slice (get_or self.now.starts.now i 0) (get_or self.now.starts.now (i + 1) 0) self.now.values.now }
    {
        part_of(self.starts, self.values, i)
    }
}

// The part of a list that belongs to row i. The row starts may be lent for less long than the list.
pub fn part_of<'a, T>(starts: &[u32], list: &'a [T], i: usize) -> &'a [T]
    requires { RowIn starts.now (length list.now) i }
    ensures { result.now ≡ slice (get_or starts.now i 0) (get_or starts.now (i + 1) 0) list.now }
{
    &list[starts[i] as usize..starts[i + 1] as usize]
}
