// The limits of document 01, and whole numbers against them.
ghost use Rattle.std.specs.Prelude.{◌≡◌, ◌≤◌};
ghost use Rattle.base.specs.Lists.{all};
ghost use Rattle.base.specs.Integers.{within};
ghost use Rattle.matrix.specs.Limits.{max_value};

// "A matrix has n freedoms, 1 to 4,096 .. and at most 32,768 stored entries on and below the diagonal"
pub const MAX_ROWS: usize = 4096;

pub const MAX_ENTRIES: usize = 32768;

// Where each row starts, and where the last ends; and the entries of full rows.
pub const MAX_STARTS: usize = MAX_ROWS + 1;

pub const MAX_CELLS: usize = 2 * MAX_ENTRIES;

// "Stiffness is whole N/mm, at most 1,000,000,000 either side of 0"
pub const MAX_VALUE: u32 = 1000000000;

// "Movement is whole µm, at most 1,000,000 either side of 0"
pub const MAX_DISPLACEMENT: u32 = 1000000;

// "Text is at most 1,048,576 bytes"
pub const MAX_TEXT: usize = 1048576;

// Whether every number is within the limit. Each is tested, with no branch between, so that the compiler tests several
// at once.
pub fn all_within(numbers: &[i32], limit: u32) -> bool
    requires { limit ≤ max_value }
    ensures { result ≡ all (within limit) numbers.now }
{
    let most = limit as i32;
    let least = 0 - most;
    let mut inside = true;
    for z in numbers {
        inside = inside & (least <= *z) & (*z <= most);
    }
    inside
}
