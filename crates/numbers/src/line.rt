// The line at a position of a text.

ghost use Rattle.std.specs.Prelude.{◌≡◌, ◌+◌, ◌<◌, length, drop};
ghost use Rattle.market.specs.Fields.{digits};
ghost use Rattle.numbers.specs.Lines.{is_spelled, number_on};
ghost use Rattle.numbers.specs.Code.Lines.{plain_of, negative_of, line_at};

use crate::digits::read_digits;
use base::Kind;
use scan::classes::{LINE_END, SIGN, class_at};

// The least number of 64 bits, without its sign.
pub(crate) const LEAST: u64 = 9223372036854775808;

// The largest number of 64 bits that has no sign.
const LARGEST: u64 = 18446744073709551615;

// Whether the digits from a position up to the next are a number: one at least, and no needless zero.
fn is_whole(text: &[u8], at: usize, next: usize) -> bool
    requires { next ≡ at + length (digits (drop at text.now)) }
    ensures { result ≡ is_spelled (digits (drop at text.now)) }
{
    if next <= at {
        return false;
    }
    if next - at <= 1 {
        return true;
    }
    text[at] != b'0'
}

// A number that carries no sign, on a line that ends before `next`.
fn plain(value: u64, next: usize) -> Result<(u64, usize), Kind>
    ensures { result ≡ plain_of value next }
{
    if value < LEAST {
        return Ok((value, next));
    }
    Err(Kind::BadEntry)
}

// One that carries `-`.
fn negated(value: u64, next: usize) -> Result<(u64, usize), Kind>
    ensures { result ≡ negative_of value next }
{
    if value == 0 {
        return Err(Kind::BadForm);
    }
    if value <= LEAST {
        return Ok((LARGEST - (value - 1), next));
    }
    Err(Kind::BadEntry)
}

// A line's number, in two's complement, and where the next line begins; or why it is refused: the number passes 64
// bits, or the line breaks the form.
pub(crate) fn read_line(text: &[u8], at: usize) -> Result<(u64, usize), Kind>
    ensures { result ≡ line_at at (number_on (drop at text.now)) }
{
    let signed = class_at(text, at) == SIGN;
    let first = at + signed as usize;
    let found = read_digits(text, first);
    let value = found.value;
    let next = found.next;
    if !is_whole(text, first, next) {
        return Err(Kind::BadForm);
    }
    if class_at(text, next) != LINE_END {
        return Err(Kind::BadForm);
    }
    if signed {
        return negated(value, next + 1);
    }
    plain(value, next + 1)
}
