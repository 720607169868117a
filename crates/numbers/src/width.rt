// How many bytes a number's line takes.

ghost use Rattle.std.specs.Prelude.{◌≡◌, ◌^◌, ◌<◌, length, unsigned_abs};
ghost use Rattle.market.specs.Text.{decimal};
ghost use Rattle.words.specs.LittleEndian.{to_signed};
ghost use Rattle.numbers.specs.Lines.{number_line};

use crate::line::LEAST;

// How many digits a number has, four at a time. (The matrix writer's are few, and are tested at once, with no branch.)
fn width(v: u64) -> usize
    requires { v < 10 ^ 19 }
    ensures { result ≡ length (decimal 19 v) }
{
    let mut digits: usize = 1;
    let mut x = v;
    // A turn takes four digits away: a number, and no range, is gone through.
    while 10000 <= x {
        digits += 4;
        x /= 10000;
    }
    digits + (10 <= x) as usize + (100 <= x) as usize + (1000 <= x) as usize
}

// A number in two's complement without its sign.
pub(crate) fn magnitude(bits: u64) -> u64
    ensures { result ≡ unsigned_abs (to_signed 8 bits) }
{
    bits.cast_signed().unsigned_abs()
}

pub(crate) fn line_width(bits: u64) -> usize
    ensures { result ≡ length (number_line (to_signed 8 bits)) }
{
    width(magnitude(bits)) + (LEAST <= bits) as usize + 1
}
