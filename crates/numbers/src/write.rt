// A list written as text.

ghost use Rattle.std.specs.Prelude.{◌≡◌, ◌≤◌, length};
ghost use Rattle.base.specs.Verdicts.{reply_of};
ghost use Rattle.base.specs.Replies.{lent};
ghost use Rattle.words.specs.LittleEndian.{signed, stored};
ghost use Rattle.numbers.specs.Lines.{numbers_text};
ghost use Rattle.numbers.specs.Calls.{write_numbers_reply};
ghost use Rattle.numbers.specs.Code.Puts.{size_of};

use crate::low::low;
use crate::put::put_line;
use crate::read::NUMBER;
use crate::width::line_width;
use base::{Kind, Refusal};
use std::num::wrapping_add_u32;
use words::word::Word;

// How many bytes a text takes, if there is room; or a refusal, with what 32 bits keep of that.
// The text may take more bytes than 64 bits count, so lines are taken from the room, and those that find none left are
// counted.
fn measure(numbers: &[u8], room: usize) -> Result<usize, Refusal>
    ensures { result ≡ size_of (length (numbers_text (signed 8 numbers.now))) room }
{
    let count = numbers.len() / NUMBER;
    let mut needed: u32 = 0;
    let mut left = room;
    let mut over: usize = 0;
    for k in 0..count {
        let size = line_width(u64::read(numbers, k * NUMBER));
        needed = wrapping_add_u32(needed, size as u32);
        over += (left < size) as usize;
        left -= size.min(left);
    }
    if 0 < over {
        return Err(Refusal {
            kind: Kind::TooShort,
            place: needed,
        });
    }
    Ok(room - left)
}

// The text of so many bytes, from the last number to the first. It ends at `size`, and the room, which C lends, may be
// longer.
fn fill(numbers: &[u8], text: &mut [u8], size: usize)
    requires { (size ≡ length (numbers_text (signed 8 numbers.now))) × (size ≤ length text.old) }
    ensures { text.new ≡ stored (numbers_text (signed 8 numbers.now)) text.old }
{
    let mut at = size;
    for k in (0..numbers.len() / NUMBER).rev() {
        at = put_line(text, at, u64::read(numbers, k * NUMBER));
    }
}

pub fn write(numbers: &[u8], text: &mut [u8]) -> Result<u32, Refusal>
    ensures replies { reply_of result ≡ write_numbers_reply (signed 8 numbers.now) (length text.old) }
    ensures text { text.new ≡ lent (reply_of result) (numbers_text (signed 8 numbers.now)) text.old }
{
    let bytes = measure(numbers, text.len())?;
    fill(numbers, text, bytes);
    Ok(low(bytes))
}
