// Matrix Market integer symmetric text: what a text means, and how a matrix is written. Reader and writer are crates of
// their own.
#![tactic(auto)]

pub mod digits;

ghost use Rattle.std.specs.Prelude.{◌≡◌};
ghost use Rattle.base.specs.Integers.{within};
ghost use Rattle.matrix.specs.Limits.{max_value};

use matrix::limits::MAX_VALUE;

// Line 1.
pub const HEADER: [u8; 51] = *b"%%MatrixMarket matrix coordinate integer symmetric\n";

// Whether a value is within its limits.
#[tactic(auto, unfolding(base::specs::Integers::within))]
pub fn in_limits(v: i64) -> bool
    ensures { result ≡ within max_value v }
{
    v.unsigned_abs() <= MAX_VALUE as u64
}
