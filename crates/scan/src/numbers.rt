// Numbers at a position of a text.

ghost use Rattle.std.specs.Prelude.{◌≡◌, ◌≢◌, ◌+◌, ◌<◌, length, get_or, drop};
ghost use Rattle.market.specs.Bytes.{class_of, digit0};
ghost use Rattle.market.specs.Fields.{numeral, spaces, field};
ghost use Rattle.scan.specs.Code.Positions.{number_at};

use crate::classes::{DIGIT, SPACE, class_at, class_of};

// The most digits of a number.
const MOST_DIGITS: usize = 10;

// The number at a position where a digit stands that is not 0.
fn read_digits(s: &[u8], at: usize) -> Option<(u64, usize)>
    requires { (at < length s.now) × (class_of (get_or s.now at 0) ≡ 1) × (get_or s.now at 0 ≢ digit0) }
    ensures { result ≡ number_at at (numeral (drop at s.now)) }
{
    let end = at + (s.len() - at).min(MOST_DIGITS);
    let mut v = s[at] as u64 - 48;
    for i in at + 1..end {
        let b = s[i];
        if class_of(b) != DIGIT {
            return Some((v, i));
        }
        v = v * 10 + (b as u64 - 48);
    }
    if class_at(s, end) == DIGIT {
        return None;
    }
    Some((v, end))
}

// The number at a position: 1 to 10 digits and no needless leading zero.
pub fn read_number(s: &[u8], at: usize) -> Option<(u64, usize)>
    ensures { result ≡ number_at at (numeral (drop at s.now)) }
{
    if s.len() <= at {
        return None;
    }
    let first = s[at];
    if class_of(first) != DIGIT {
        return None;
    }
    if first != b'0' {
        return read_digits(s, at);
    }
    if class_at(s, at + 1) == DIGIT {
        return None;
    }
    Some((0, at + 1))
}

// The position after the spaces at a position.
pub(crate) fn skip_spaces(s: &[u8], at: usize) -> usize
    ensures { result ≡ at + spaces (drop at s.now) }
{
    for i in at..s.len() {
        if class_of(s[i]) != SPACE {
            return i;
        }
    }
    at.max(s.len())
}

// One or more spaces and a number at a position.
pub(crate) fn read_field(s: &[u8], at: usize) -> Option<(u64, usize)>
    ensures { result ≡ number_at at (field (drop at s.now)) }
{
    if class_at(s, at) != SPACE {
        return None;
    }
    read_number(s, skip_spaces(s, at + 1))
}
