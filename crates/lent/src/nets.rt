// The bytes of a matrix, as a caller lends them, and the matrix that they stand for.
ghost use Rattle.std.specs.Prelude.{◌/◌, ◌≤◌, length};
ghost use Rattle.matrix.specs.Code.Room.{max_cells, Reaches};

use crate::lists::decode;
use matrix::limits::MAX_STARTS;
use matrix::lists::Matrix;

// A matrix of n rows: row starts and columns of four bytes each, values of four in two's complement.
#[derive(Clone, Copy)]
pub struct NetBytes<'a> {
    pub n: u32,
    pub row_starts: &'a [u8],
    pub columns: &'a [u8],
    pub values: &'a [u8],
}

// .. whose columns and values have room in arrays of CELLS numbers.
#[derive(Clone, Copy)]
pub struct SizedNet<'a, const CELLS: usize> {
    pub net: NetBytes<'a>,
    ghost fit: { (CELLS ≤ max_cells) × Reaches CELLS (length net.columns.now / 4) × Reaches CELLS (length net.values.now / 4) },
}

impl<const CELLS: usize> SizedNet<'_, CELLS> {
    ghost use Rattle.std.specs.Prelude.{◌≡◌};
    ghost use Rattle.matrix.specs.Held.{held};
    ghost use Rattle.lent.specs.Code.Nets.{net_of, first_cells};

    // The matrix, decoded as far as a matrix can reach, into arrays of the caller's frame, since there is no heap.
    pub fn decode<'b>(
        &self,
        starts: &'b mut [u32; MAX_STARTS],
        columns: &'b mut [u32; CELLS],
        values: &'b mut [i32; CELLS],
    ) -> Matrix<'b>
        ensures { held result ≡ first_cells (net_of self.now.net) }
    {
        Matrix {
            n: self.net.n as usize,
            starts: decode(self.net.row_starts, starts),
            columns: decode(self.net.columns, columns),
            values: decode(self.net.values, values),
        }
    }
}
