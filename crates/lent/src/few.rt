// Columns and values that fit smaller arrays: an array is filled with zeros first, whatever it is to hold.
ghost use Rattle.std.specs.Prelude.{◌≡◌, true};
ghost use Rattle.lent.specs.Code.Few.{IsFew};

// The size of such arrays.
pub const FEW_CELLS: usize = 16384;

// Whether columns and values, of four bytes each, fit them.
pub fn are_few(columns: &[u8], values: &[u8]) -> bool
    ensures { result ≡ true → IsFew columns.now × IsFew values.now }
{
    columns.len() / 4 <= FEW_CELLS && values.len() / 4 <= FEW_CELLS
}
