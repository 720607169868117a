// Whole numbers against a limit.
ghost use Rattle.std.specs.Prelude.{◌≡◌};
ghost use Rattle.base.specs.Integers.{within};
ghost use Rattle.matrix.specs.Matrix.{first_past};

// Whether z is at most the limit either side of 0.
#[tactic(auto, unfolding(base::specs::Integers::within))]
pub fn is_within(z: i32, limit: u32) -> bool
    ensures { result ≡ within limit z }
{
    z.unsigned_abs() <= limit
}

// The first place whose number passes the limit; the length if none does.
pub(crate) fn first_past(numbers: &[i32], limit: u32) -> usize
    ensures { result ≡ first_past limit numbers.now }
{
    for (k, z) in numbers.iter().enumerate() {
        if !is_within(*z, limit) {
            return k;
        }
    }
    numbers.len()
}
