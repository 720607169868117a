// A list read from its text.

ghost use Rattle.std.specs.Prelude.{◌≡◌, ◌*◌, ◌/◌, ◌≤◌, length};
ghost use Rattle.base.specs.Verdicts.{reply_of};
ghost use Rattle.base.specs.Replies.{lent};
ghost use Rattle.words.specs.LittleEndian.{signed_bytes, stored};
ghost use Rattle.numbers.specs.Lines.{numbers, listed};
ghost use Rattle.numbers.specs.Calls.{numbers_in, read_numbers_reply};
ghost use Rattle.numbers.specs.Code.Lines.{Judges};

use crate::line::read_line;
use crate::low::low;
use base::{Kind, Refusal};
use words::word::Word;

// The bytes of a number.
pub(crate) const NUMBER: usize = 8;

// How many numbers a text has; or why it is refused, and at which line.
fn judge(text: &[u8]) -> Result<usize, Refusal>
    ensures { Judges (listed text.now) result }
{
    let mut count: usize = 0;
    let mut at = 0;
    // A turn goes on where a line ends, which is no next number.
    while at < text.len() {
        match read_line(text, at) {
            Ok((_, next)) => {
                at = next;
                count += 1;
            }
            Err(kind) => {
                return Err(Refusal {
                    kind,
                    place: low(count + 1),
                });
            }
        }
    }
    Ok(count)
}

// The numbers of a text that has no others than they, stored one after the other.
fn fill(text: &[u8], list: &mut [u8])
    requires { (listed text.now ≡ numbers (numbers_in (listed text.now))) × (length (numbers_in (listed text.now)) * 8 ≤ length list.old) }
    ensures { list.new ≡ stored (signed_bytes 8 (numbers_in (listed text.now))) list.old }
{
    let mut k: usize = 0;
    let mut at = 0;
    // As above; each line has its number.
    while at < text.len() {
        let (bits, next) = read_line(text, at).unwrap();
        bits.write(list, k * NUMBER);
        at = next;
        k += 1;
    }
}

pub fn read(text: &[u8], list: &mut [u8]) -> Result<u32, Refusal>
    ensures replies { reply_of result ≡ read_numbers_reply (listed text.now) (length list.old / 8) }
    ensures list { list.new ≡ lent (reply_of result) (signed_bytes 8 (numbers_in (listed text.now))) list.old }
{
    let count = judge(text)?;
    if list.len() / NUMBER < count {
        return Err(Refusal {
            kind: Kind::TooShort,
            place: low(count),
        });
    }
    fill(text, list);
    Ok(low(count))
}
