// Numbers put into a text from its end on, so that each begins where the one after it has begun.

ghost use Rattle.std.specs.Prelude.{◌≤◌, length};
ghost use Rattle.market.specs.Code.Puts.{PutBefore};
ghost use Rattle.words.specs.LittleEndian.{to_signed};
ghost use Rattle.numbers.specs.Lines.{number_line};

use crate::line::LEAST;
use crate::width::magnitude;
use market::digits::put_digits;

// A number's line before a place, and where it begins.
pub(crate) fn put_line(text: &mut [u8], end: usize, bits: u64) -> usize
    requires { (length (number_line (to_signed 8 bits)) ≤ end) × (end ≤ length text.old) }
    ensures { PutBefore (number_line (to_signed 8 bits)) end result text.old text.new }
{
    let feed = end - 1;
    text[feed] = b'\n';
    let first = put_digits(text, feed, magnitude(bits));
    if bits < LEAST {
        return first;
    }
    let sign = first - 1;
    text[sign] = b'-';
    sign
}
