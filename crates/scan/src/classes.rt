// The class of a byte, by the ranges of digit, sign, space and line end.

ghost use Rattle.std.specs.Prelude.{◌≡◌, get_or};
ghost use Rattle.market.specs.Bytes.{class_of};

// Numbers, as `class_of` of market's specs has them: with an enum each test would need a translation to them.
const OTHER: u8 = 0;

pub const DIGIT: u8 = 1;

pub const SIGN: u8 = 2;

pub(crate) const SPACE: u8 = 3;

pub const LINE_END: u8 = 4;

// The digits first, as most bytes of a text are: beside them in one match the single bytes would be tested before.
pub fn class_of(b: u8) -> u8
    ensures { result ≡ class_of b }
{
    match b {
        b'0'..=b'9' => DIGIT,
        _ => match b {
            b'-' => SIGN,
            b' ' => SPACE,
            b'\n' => LINE_END,
            _ => OTHER,
        },
    }
}

// The class of the byte at a position: past the end as of a byte 0, which is no part of a number.
pub fn class_at(s: &[u8], at: usize) -> u8
    ensures { result ≡ class_of (get_or s.now at 0) }
{
    if s.len() <= at {
        return class_of(0);
    }
    class_of(s[at])
}
