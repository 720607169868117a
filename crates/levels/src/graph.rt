// The rows of a matrix with those adjacent to each, as the search reads them.
ghost use Rattle.levels.specs.Code.Rows.{Rows};

use matrix::lists::Matrix;

// A matrix each of whose entries is mirrored, and in which no row is adjacent to all.
#[derive(Clone, Copy)]
pub struct Graph<'a> {
    pub m: Matrix<'a>,
    ghost rows: { Rows m.n m.starts.now m.columns.now },
}

impl<'a> Graph<'a> {
    ghost use Rattle.std.specs.Prelude.{◌≡◌, ◌<◌};
    ghost use Rattle.matrix.specs.Matrix.{columns_of};
    ghost use Rattle.levels.specs.Code.Graph.{pattern_of};

    // Row v's columns.
    pub fn columns_of(&self, v: usize) -> &'a [u32]
        requires { v < self.now.m.n }
        ensures { result.now ≡ columns_of (pattern_of self.now) v }
    {
        self.m.columns_of(v)
    }
}
